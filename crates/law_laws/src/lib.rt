//! Laws of the definitions of `law_sig`: each function has an empty body, and its contract is the law.
#![tactic(auto)]

mod counting;

ghost use Rattle.law_laws.specs.Agreement.{AgreementIsPartialEquivalence, LeastTellsValues, OneLawList};
ghost use Rattle.law_laws.specs.Application.{ComputedIsGiven, GivenIsComputed, OneValue, DepthChangesNothing, BudgetBoundsCost};
ghost use Rattle.law_laws.specs.Coverage.{ListCovers, LeastExists, ListInBudgetCovers};
ghost use Rattle.law_laws.specs.Derivation.{DerivationKeepsSorts, InstancesAreDerivable, DerivableEquationsAddNothing, ChainsDerive};
ghost use Rattle.law_laws.specs.Filling.{NumberedTermsFill};
ghost use Rattle.law_laws.specs.Orders.{OrdersAreSpelled, ExploringFollowsWeight, OrdersAreTotal, EqualIsSame, FallsWithArgument, DescentsEnd};
ghost use Rattle.law_laws.specs.Renaming.{TestsAreRenamed, FlatTestsSeeSchemas};

pub use counting::counting_laws;

/// The law list covers, where every term of the universe has a value at every test and a least one; and each has a least
/// one, whatever is over budget.
pub fn coverage_laws()
    ensures covers { ListCovers }
    ensures least { LeastExists }
    ensures in_budget { ListInBudgetCovers }
{}

/// What the orders of terms compare, step by step. They follow the weight, are total, equal only at the same term, and
/// fall where an argument does; and every descent in the order of exploring ends.
pub fn order_laws()
    ensures spelled { OrdersAreSpelled }
    ensures weight { ExploringFollowsWeight }
    ensures total { OrdersAreTotal }
    ensures equal { EqualIsSame }
    ensures falls { FallsWithArgument }
    ensures ends { DescentsEnd }
{}

/// Application as a function and as a relation are the same, with one value and one cost; and a budget bounds the cost.
pub fn application_laws()
    ensures given { ComputedIsGiven }
    ensures computed { GivenIsComputed }
    ensures one { OneValue }
    ensures depth { DepthChangesNothing }
    ensures budget { BudgetBoundsCost }
{}

/// Derivation keeps sorts, is closed under substitutions that keep sorts, and gains nothing from derivable equations. A chain
/// that replays is a derivation.
pub fn derivation_laws()
    ensures sorts { DerivationKeepsSorts }
    ensures instances { InstancesAreDerivable }
    ensures derived { DerivableEquationsAddNothing }
    ensures chains { ChainsDerive }
{}

/// Agreement is symmetric and transitive, terms of one sort with the same values have the same least term, and there is
/// one law list.
pub fn agreement_laws()
    ensures equivalence { AgreementIsPartialEquivalence }
    ensures least { LeastTellsValues }
    ensures one { OneLawList }
{}

/// The tests are closed under renaming the variables of each sort, and a flat test gives a term and its schema the same
/// value; and a term whose variables are numbered from the left becomes any term of its schema by a renaming.
pub fn test_laws()
    ensures renamed { TestsAreRenamed }
    ensures flat { FlatTestsSeeSchemas }
    ensures filled { NumberedTermsFill }
{}
