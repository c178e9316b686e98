//! Ordered rewriting, critical pairs and bounded completion, as definitions and laws: each function here has an empty body,
//! and its contract is the law.
#![tactic(auto)]

ghost use Rattle.law_rewriting.specs.CompletionLaws.{OneCourse, CoursesJoin, LemmasAreProvable, LemmasAreLight};
ghost use Rattle.law_rewriting.specs.PairLaws.{UnifiersExist, UnifiersAreRenamed, KboFalls, OnePair, PairsAreSorted, OneItem, EndHasNoItem, ItemsStay};
ghost use Rattle.law_rewriting.specs.Roots.{MatchesDecide, CandidatesDecide};
ghost use Rattle.law_rewriting.specs.StepLaws.{OneOrderedStep, OneNormalForm, StepsFall, StepsCompose, NormalFormsReplay, ReplaysAreSorted, NormalFormsReplayByHead, OneJoin, JoinsReplay, JoinsReplayByHead};

/// A term has at most one ordered step and one normal form, and is none the greater after a step. The ordered step is that of
/// the first argument that has one, or else the one at the root.
pub fn step_laws()
    ensures one { OneOrderedStep }
    ensures form { OneNormalForm }
    ensures falls { StepsFall }
    ensures composed { StepsCompose }
{}

/// The step at a root is found by matching, and any equations may be left out that don't match.
pub fn root_laws()
    ensures matches { MatchesDecide }
    ensures candidates { CandidatesDecide }
{}

/// The chain to a normal form replays, in full and by heads. Joined terms have one chain, and it replays likewise.
pub fn chain_laws()
    ensures form { NormalFormsReplay }
    ensures sorted { ReplaysAreSorted }
    ensures form_by_head { NormalFormsReplayByHead }
    ensures one { OneJoin }
    ensures join { JoinsReplay }
    ensures join_by_head { JoinsReplayByHead }
{}

/// Two terms have a most general unifier or none at all, and any two of them differ by a renaming. What is greater in the
/// Knuth-Bendix order has instances that are greater in K.
pub fn unifier_laws()
    ensures exist { UnifiersExist }
    ensures renamed { UnifiersAreRenamed }
    ensures falls { KboFalls }
{}

/// A name has at most one pair, and it is well-sorted. A number has at most one pair, which stays while equations are added.
pub fn pair_laws()
    ensures pair { OnePair }
    ensures sorted { PairsAreSorted }
    ensures item { OneItem }
    ensures end { EndHasNoItem }
    ensures stays { ItemsStay }
{}

/// Completion has one course, in as many calls as you like; and its lemmas are provable, and light.
pub fn completion_laws()
    ensures course { OneCourse }
    ensures joins { CoursesJoin }
    ensures provable { LemmasAreProvable }
    ensures light { LemmasAreLight }
{}
