ghost use Rattle.law_lines.specs.Laws.{SpelledIsRead, SpelledIsWalked};
ghost use Rattle.law_places.specs.Laws.{OneFault, OneTermFault, ReadIsSpelled, RefusedIsNoText};

/// Each line that may come at a stage and that the grammar spells is read to its end, and has no fault; and a
/// line without a fault is the spelling of one that may come.
pub fn spelled_lines_are_read()
    ensures walked { SpelledIsWalked }
    ensures read { SpelledIsRead }
    ensures spelled { ReadIsSpelled }
{}

/// A text with a first fault is the spelling of no signature, and it has no other first fault; and a term is
/// refused for one reason.
pub fn refused_texts_are_none()
    ensures none { RefusedIsNoText }
    ensures one { OneFault }
    ensures term { OneTermFault }
{}
