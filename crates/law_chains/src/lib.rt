//! Laws of chains of steps, and of the tests by which one is replayed: each function has an empty body, and its contract is
//! the law.
#![tactic(auto)]

ghost use Rattle.law_chains.specs.Chains.{OneStep, BindsAreComputed};

/// A step leads to one term at most. Terms are given for exactly the variables of an equation, in order, where four tests
/// of them come out true.
pub fn chain_laws()
    ensures one { OneStep }
    ensures binds { BindsAreComputed }
{}
