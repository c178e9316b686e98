ghost use Rattle.law_faultless.specs.Laws.{OneSignature, TypedShowsNoFault, NamedStatesTerm, TypedOfRawTerm};

/// Lines state one signature at most, and of lines that state one no line shows a fault. A well-sorted term that is written
/// by its names is read back: `typed` of its `raw_term` is the term.
pub fn typing_laws()
    ensures one { OneSignature }
    ensures faultless { TypedShowsNoFault }
    ensures named { NamedStatesTerm }
    ensures back { TypedOfRawTerm }
{}
