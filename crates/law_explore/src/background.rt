ghost use Rattle.std.specs.Prelude.{◌+◌, ◌<◌, IfOk, IfErr, OnOk};
ghost use Rattle.law_sig.specs.Tests.{Agrees};
ghost use Rattle.law_draws.specs.Draws.{pools_by};
ghost use Rattle.law_sig.specs.Laws.{IsBackgroundTrue};
ghost use Rattle.law_testing.specs.Evaluators.{AreReady, Extends};
ghost use Rattle.law_testing.specs.Values.{IsTestable, IsValue, tests_by};
ghost use Rattle.law_explore.specs.Refusals.{Breaks, IsFirstAnswer, HasBrokenBackground, IsTold};
ghost use Rattle.law_explore.specs.Values.{IsLacking, HoldsAt};

use super::refusal::{ExploreErr, over};
use law_eval::EvalErr;
use law_sig::{Equation, Tree};
use law_test::{Evaluator, Tester};
use law_value::{ValueBank, ValueId};

/// The value of a side of an equation at a test.
fn side(
    tester: &Tester,
    evaluator: &mut Evaluator<'_>,
    test: u64,
    term: &Tree,
) -> Result<ValueId, ExploreErr>
    requires pools { AreReady tester.now.sig.now evaluator.old tester.now.pools.now }
    requires test { test < tests_by tester.now.sig.now }
    requires term { IsTestable tester.now.sig.now term.now }
    ensures value { IfOk result (IsValue tester.now.sig.now evaluator.new.bank test term.now) }
    ensures over { IfErr result (IsTold tester.now.sig.now (IsLacking tester.now.sig.now term.now test)) }
    ensures extends { Extends evaluator.old evaluator.new }
{
    match evaluator.value(tester, test, term) {
        Ok(found) => Ok(found),
        Err(EvalErr::Over) => Err(over(tester.alloc, tester.sig, term, test)),
        Err(EvalErr::NoMemory) => Err(ExploreErr::NoMemory),
    }
}

/// Whether an equation holds at a test: both sides have a value, and the same one.
fn check_at(
    tester: &Tester,
    evaluator: &mut Evaluator<'_>,
    number: u64,
    equation: &Equation,
    test: u64,
) -> Result<(), ExploreErr>
    requires pools { AreReady tester.now.sig.now evaluator.old tester.now.pools.now }
    requires test { test < tests_by tester.now.sig.now }
    requires left { IsTestable tester.now.sig.now equation.now.left }
    requires right { IsTestable tester.now.sig.now equation.now.right }
    ensures holds { OnOk result (HoldsAt tester.now.sig.now equation.now test) }
    ensures breaks { IfErr result (IsTold tester.now.sig.now (Breaks tester.now.sig.now (pools_by tester.now.sig.now) number equation.now test)) }
    ensures extends { Extends evaluator.old evaluator.new }
{
    let left = side(tester, evaluator, test, &equation.left)?;
    let right = side(tester, evaluator, test, &equation.right)?;
    evaluator.shared();
    if ValueBank::same(left, right) {
        Ok(())
    } else {
        Err(ExploreErr::BackgroundFails { law: number, test })
    }
}

/// Whether an equation holds at every test. It is asked at the own tests of its variables alone.
fn check_equation(
    tester: &Tester,
    evaluator: &mut Evaluator<'_>,
    number: u64,
    equation: &Equation,
) -> Result<(), ExploreErr>
    requires pools { AreReady tester.now.sig.now evaluator.old tester.now.pools.now }
    requires left { IsTestable tester.now.sig.now equation.now.left }
    requires right { IsTestable tester.now.sig.now equation.now.right }
    ensures holds { OnOk result (Agrees tester.now.sig.now (pools_by tester.now.sig.now) equation.now.left equation.now.right) }
    ensures breaks { IfErr result (IsTold tester.now.sig.now (IsFirstAnswer (Breaks tester.now.sig.now (pools_by tester.now.sig.now) number equation.now) (tests_by tester.now.sig.now))) }
    ensures extends { Extends evaluator.old evaluator.new }
{
    let own = tester.own_tests(&equation.left, &equation.right)?;
    let tests = tester.tests();
    let mut test = 0;
    while test < tests {
        check_at(tester, evaluator, number, equation, test)?;
        test = own.next(test);
    }
    Ok(())
}

/// Whether each background equation holds at every test, by number and then by test.
pub fn check_background(tester: &Tester, evaluator: &mut Evaluator<'_>) -> Result<(), ExploreErr>
    requires { AreReady tester.now.sig.now evaluator.old tester.now.pools.now }
    ensures holds { OnOk result (IsBackgroundTrue tester.now.sig.now (pools_by tester.now.sig.now)) }
    ensures breaks { IfErr result (IsTold tester.now.sig.now (HasBrokenBackground tester.now.sig.now (pools_by tester.now.sig.now))) }
    ensures extends { Extends evaluator.old evaluator.new }
{
    let background = tester.sig.settings().background.as_slice();
    for (at, equation) in background.iter().enumerate() {
        check_equation(tester, evaluator, at as u64 + 1, equation)?;
    }
    Ok(())
}
