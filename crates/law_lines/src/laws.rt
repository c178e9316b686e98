ghost use Rattle.law_lines.specs.Laws.{OneTerm, OneText};

/// A text is the spelling of one signature at most, and of one term at most.
pub fn texts_have_one_reading()
    ensures text { OneText }
    ensures term { OneTerm }
{}
