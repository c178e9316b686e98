//! Own tests: laws of the definitions in specs/. Each function has an empty body, and its contract is the law.
#![tactic(auto)]

ghost use Rattle.law_own.specs.Own.{OwnTestsAre, OwnTestsTell, OwnTestsStayFlat, OwnTestsDecide, FirstIsOwn, OwnTestsGoOn, HasBothTerms};

/// At an own test the variables of the set read their places, in the same pool, and all others place 0. It is no later, and
/// its own. A term with variables of the set alone has there the value that it has at the test. So two such terms agree
/// exactly where they do at every own test, and the first test at which they don't is an own one. Each own test has a next
/// one. The variables of two terms are a set that has those of each.
pub fn own_laws()
    ensures are { OwnTestsAre }
    ensures tell { OwnTestsTell }
    ensures flat { OwnTestsStayFlat }
    ensures decide { OwnTestsDecide }
    ensures first { FirstIsOwn }
    ensures next { OwnTestsGoOn }
    ensures both { HasBothTerms }
{}
