ghost use Rattle.std.specs.Prelude.{◌≡◌, ◌+◌, ◌<◌, ◌≤◌, ℕ, List, length, IfOk, IfErr};
ghost use Rattle.law_ids.specs.declared.ids.ValueId.{ValueId};
ghost use Rattle.law_tree.specs.Asking.{Rose, SaysNothingNew};

use law_value::ValueId;

/// Gives values of items at tests, and may fail.
pub trait Ask {
    type Item;

    type Fault;

    /// An item may be asked at a test.
    ghost may: { Self → Self.Item → ℕ → Type 0 };

    /// An item has a value at a test.
    ghost means: { Self → Self.Item → ℕ → ValueId → Type 0 };

    /// A fault is true of an item and a test.
    ghost true_fault: { Self → Self.Item → ℕ → Self.Fault → Type 0 };

    /// A count of faults.
    ghost faults: { Self → ℕ };

    /// A count of questions.
    ghost asks: { Self → ℕ };

    /// These tests are a list along which `next` may leave tests out.
    ghost tells: { Self → List ℕ → Type 0 } = { λ _ _. Unit {0} };

    /// The value of an item at a test.
    fn value(&mut self, item: &Self::Item, test: u64) -> Result<ValueId, Self::Fault>
        requires { may self.old item.now test }
        ensures value { IfOk result (λ v. means self.new item.now test v) }
        ensures fault { IfErr result (λ f. true_fault self.new item.now test f) }
        ensures rose { IfErr result (λ f. Rose (faults self.old) (faults self.new)) }
        ensures faults { faults self.old ≤ faults self.new }
        ensures may_stays { (x : Self.Item) (t : ℕ) → may self.old x t → may self.new x t }
        ensures meaning_stays { (x : Self.Item) (t : ℕ) (v : ValueId) → means self.old x t v → means self.new x t v }
        ensures telling_stays { (ts : List ℕ) → tells self.old ts → tells self.new ts }
        ensures asked { asks self.new ≤ asks self.old + 1 }
        ensures counted { asks self.old ≤ asks self.new };

    /// The place, from `from` on, of the next test that can tell two items apart: at each one that is left out, both are what
    /// they are at one before `from`. Where every test may tell them, it is `from`.
    fn next(&self, _a: &Self::Item, _b: &Self::Item, tests: &[u64], from: usize) -> usize
        requires tells { tells self.now tests.now }
        requires from { from < length tests.now }
        ensures later { from ≤ result }
        ensures within { result ≤ length tests.now }
        ensures repeats { SaysNothingNew (means self.now) _a.now _b.now tests.now from result }
    {
        let _count = tests.len();
        from
    }

    /// An item has one value at a test.
    ghost one_value: { (s : Self) (x : Self.Item) (t : ℕ) (v w : ValueId) → means s x t v → means s x t w → v ≡ w };
}
