ghost use Rattle.std.specs.Prelude.{◌≡◌, ℕ, ◌≤◌, List, [], ◌∷◌, IfOk, IfErr};
ghost use Rattle.law_tree.specs.Asking.{MayAll, MayStays, MeaningStays, Rose, IsOf};
ghost use Rattle.law_tree.specs.Comparing.{IsCompared, IsAskedUpTo};

use super::ask::Ask;
use law_value::ValueId;

/// The first test at which two items differ, and their values there.
#[derive(Clone, Copy, Debug)]
pub struct Difference {
    pub test: u64,
    pub old: ValueId,
    pub new: ValueId,
}

/// Where two items differ first. They are asked for only at tests that can tell them apart.
pub fn first_difference<T: Copy, A: Ask<Item = T>>(
    ask: &mut A,
    item: T,
    old: T,
    tests: &[u64],
) -> Result<Option<Difference>, A::Fault>
    requires may_item { MayAll (A.may ask.old) item tests.now }
    requires may_old { MayAll (A.may ask.old) old tests.now }
    requires tells { A.tells ask.old tests.now }
    ensures compared { IfOk result (IsCompared (A.means ask.new) item old tests.now) }
    ensures asked { IsAskedUpTo (A.means ask.new) item old tests.now (A.asks ask.old) (A.asks ask.new) }
    ensures fault { IfErr result (λ f. IsOf (A.true_fault ask.new) (item ∷ old ∷ []) tests.now f) }
    ensures rose { IfErr result (λ f. Rose (A.faults ask.old) (A.faults ask.new)) }
    ensures faults { A.faults ask.old ≤ A.faults ask.new }
    ensures may_stays { MayStays (A.may ask.old) (A.may ask.new) }
    ensures meaning_stays { MeaningStays (A.means ask.old) (A.means ask.new) }
    ensures telling_stays { (ts : List ℕ) → A.tells ask.old ts → A.tells ask.new ts }
    ensures counted { A.asks ask.old ≤ A.asks ask.new }
{
    let mut from = 0;
    while from < tests.len() {
        let at = ask.next(&item, &old, tests, from);
        if at >= tests.len() {
            return Ok(None);
        }
        let test = tests[at];
        let new_value = ask.value(&item, test)?;
        let old_value = ask.value(&old, test)?;
        if new_value != old_value {
            return Ok(Some(Difference {
                test,
                old: old_value,
                new: new_value,
            }));
        }
        from = at + 1;
    }
    Ok(None)
}
