ghost use Rattle.law_named.specs.Certificates.{CertCovers, CertYesIsValid, OneCertAnswer, OneReading, SpelledMeans, NamesReadBack};

use law_faultless::typing_laws;

/// The laws of a valid certificate, by its names, cover; the order of checking finds nothing wrong exactly where it is
/// valid, and has one answer at most. The lines of its trees have one reading; and each that the grammar spells has
/// one, where its first lines state a signature. Sorts and terms that are written by their names are read back.
pub fn certificate_laws()
    ensures covers { CertCovers }
    ensures exact { CertYesIsValid }
    ensures one { OneCertAnswer }
    ensures reading { OneReading }
    ensures spelled { SpelledMeans }
    ensures names { NamesReadBack }
{
    typing_laws();
}
