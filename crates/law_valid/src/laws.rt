ghost use Rattle.law_valid.specs.Checking.{YesIsValid, OneAnswer, InOrderIsWhole};
ghost use Rattle.law_valid.specs.Coverage.{ValidCovers};

/// The laws of a valid certificate cover the universe.
pub fn coverage_laws()
    ensures covers { ValidCovers }
{}

/// The order of checking finds nothing wrong exactly where the certificate is valid, and has one answer at most. Entries that
/// are expected one by one, until nothing is, have exactly the considered schemas, each with exactly its instances.
pub fn checking_laws()
    ensures exact { YesIsValid }
    ensures one { OneAnswer }
    ensures order { InOrderIsWhole }
{}
