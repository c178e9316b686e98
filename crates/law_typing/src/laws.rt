ghost use Rattle.law_typing.specs.Laws.{FaultlessStates};

/// Lines that stand in order and are spelled by the grammar, and of which no line shows a fault, state a signature.
pub fn faultless_lines_state()
    ensures { FaultlessStates }
{}
