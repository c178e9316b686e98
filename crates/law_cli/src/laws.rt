ghost use Rattle.law_cli.specs.Laws.{OneAnswer, GoodIsDone};

use law_explore::refusal_laws;

/// A text has one answer at most for each command, so that each status comes exactly where its cause holds. A text that states a
/// signature within all limits, whose background holds and whose applications are within the budget, is answered by its law
/// list; and a text that spells a valid certificate by a yes.
pub fn answer_laws()
    ensures one { OneAnswer }
    ensures good { GoodIsDone }
{
    refusal_laws();
}
