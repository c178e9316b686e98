//! Split trees: where items go, how often each is asked, and at which tests.
ghost use Rattle.std.specs.Prelude.{◌≡◌, ◌<◌, ℕ, List, IfOk};
ghost use Rattle.law_sig.specs.Lists.{Rising};
ghost use Rattle.law_acceptance.specs.Telling.{truth, above, one_number, IsCounting};

use law_sig::{NoMemory, Seq};
use law_tree::{Ask, PlaceErr, Placed, Shape, SplitTree};
use law_value::ValueId;
use std::alloc::Global;

/// No fault.
#[derive(Clone, Copy)]
struct Never;

/// Two truth values, their conjunction, and that of the first with itself, at tests that give all pairs of values.
#[derive(Drop)]
struct Truths {
    asks: u64,
    highest: u64,
}

impl Ask for Truths {
    type Item = u64;

    type Fault = Never;

    ghost may = { λ _ _ _. Unit {0} };

    ghost means = { λ _ item test v. v.0 ≡ truth item test };

    ghost true_fault = { λ _ _ _ _. ⊥ };

    ghost faults = { λ _. 0 };

    ghost asks = { λ s. s.asks };

    ghost one_value = { λ _ item test v w h k. one_number (truth item test) v w h k };

    fn value(&mut self, item: &u64, test: u64) -> Result<ValueId, Never> {
        self.asks = self.asks.saturating_add(1);
        if self.highest < test {
            self.highest = test;
        }
        let first = test % 2;
        let second = test / 2 % 2;
        if *item == 1 {
            return Ok(ValueId(second));
        }
        if *item == 2 && second == 0 {
            return Ok(ValueId(0));
        }
        Ok(ValueId(first))
    }
}

/// Numbers, told apart by whether they are above the hundredth part of a test: a hundred tests one after another say the same.
/// Each of these tests is asked.
#[derive(Drop)]
struct Singly {
    asks: u64,
}

impl Ask for Singly {
    type Item = u64;

    type Fault = Never;

    ghost may = { λ _ _ _. Unit {0} };

    ghost means = { λ _ item test v. v.0 ≡ above item test };

    ghost true_fault = { λ _ _ _ _. ⊥ };

    ghost faults = { λ _. 0 };

    ghost asks = { λ s. s.asks };

    ghost one_value = { λ _ item test v w h k. one_number (above item test) v w h k };

    fn value(&mut self, item: &u64, test: u64) -> Result<ValueId, Never> {
        self.asks = self.asks.saturating_add(1);
        if test / 100 < *item {
            return Ok(ValueId(1));
        }
        Ok(ValueId(0))
    }
}

/// The same numbers, of which one test of each hundred is asked.
#[derive(Drop)]
struct Hundreds {
    asks: u64,
}

impl Ask for Hundreds {
    type Item = u64;

    type Fault = Never;

    ghost may = { λ _ _ _. Unit {0} };

    ghost means = { λ _ item test v. v.0 ≡ above item test };

    ghost true_fault = { λ _ _ _ _. ⊥ };

    ghost faults = { λ _. 0 };

    ghost asks = { λ s. s.asks };

    ghost tells = { λ _ tests. IsCounting tests };

    ghost one_value = { λ _ item test v w h k. one_number (above item test) v w h k };

    fn value(&mut self, item: &u64, test: u64) -> Result<ValueId, Never> {
        self.asks = self.asks.saturating_add(1);
        if test / 100 < *item {
            return Ok(ValueId(1));
        }
        Ok(ValueId(0))
    }

    fn next(&self, _a: &u64, _b: &u64, tests: &[u64], from: usize) -> usize {
        let begun = from % 100;
        if begun == 0 {
            return from;
        }
        if tests.len() - from <= 100 - begun {
            return tests.len();
        }
        from + (100 - begun)
    }
}

/// The numbers from 0, so many.
#[tactic(auto, using(crate::proofs::CountingFacts::one_more))]
fn numbers(alloc: Global, count: u64) -> Result<Seq<u64>, NoMemory>
    ensures rising { IfOk result (λ tests. Rising (λ n m. n < m) tests) }
    ensures counting { IfOk result (λ tests. IsCounting tests) }
{
    let mut tests = Seq::new(alloc);
    for test in 0..count {
        tests.push(test)?;
    }
    Ok(tests)
}

/// Places items in a new tree over so many tests: whether each went where it should, and the tree has these lines.
fn places<T: Copy, A: Ask<Item = T>>(
    alloc: Global,
    ask: &mut A,
    count: u64,
    rows: &[(T, Placed)],
    lines: &[Shape],
) -> Result<bool, PlaceErr<A::Fault>>
    requires may { (x : T) (test : ℕ) → A.may ask.old x test }
    requires tells { (tests : List ℕ) → IsCounting tests → A.tells ask.old tests }
{
    let Ok(tests) = numbers(alloc, count) else {
        return Err(PlaceErr::NoMemory);
    };
    let mut tree = SplitTree::new(alloc, tests);
    for (item, expected) in rows {
        if tree.place(*item, ask)? != *expected {
            return Ok(false);
        }
    }
    match tree.shape() {
        Ok(shape) => Ok(shape.as_slice() == lines),
        Err(_) => Err(PlaceErr::NoMemory),
    }
}

/// Whether the truth values go where they should, asked so often, and at no test above this one.
fn truths_go(
    alloc: Global,
    rows: &[(u64, Placed)],
    lines: &[Shape],
    asks: u64,
    highest: u64,
) -> bool {
    let mut ask = Truths {
        asks: 0,
        highest: 0,
    };
    match places(alloc, &mut ask, 4, rows, lines) {
        Ok(right) => right && ask.asks == asks && ask.highest == highest,
        Err(_) => false,
    }
}

const ONE: &[(u64, Placed)] = &[(0, Placed::Fresh(0))];

const ONE_LINES: &[Shape] = &[Shape::Leaf(0)];

const TWO: &[(u64, Placed)] = &[(0, Placed::Fresh(0)), (1, Placed::Fresh(1))];

const TWO_LINES: &[Shape] = &[
    Shape::Split { test: 1, count: 2 },
    Shape::Leaf(0),
    Shape::Leaf(1),
];

const FOUR: &[(u64, Placed)] = &[
    (0, Placed::Fresh(0)),
    (1, Placed::Fresh(1)),
    (2, Placed::Fresh(2)),
    (3, Placed::Same(0)),
];

const FOUR_LINES: &[Shape] = &[
    Shape::Split { test: 1, count: 2 },
    Shape::Leaf(0),
    Shape::Split { test: 2, count: 2 },
    Shape::Leaf(1),
    Shape::Leaf(2),
];

#[test]
fn one_item_is_never_asked(rt: HostRuntime) {
    assert!(rt; truths_go(rt.alloc(), ONE, ONE_LINES, 0, 0));
}

#[test]
fn two_items_are_asked_up_to_where_they_differ(rt: HostRuntime) {
    assert!(rt; truths_go(rt.alloc(), TWO, TWO_LINES, 4, 1));
}

#[test]
fn equal_items_are_asked_at_all_tests(rt: HostRuntime) {
    assert!(rt; truths_go(rt.alloc(), FOUR, FOUR_LINES, 20, 3));
}

/// Whether the conjunction of the first with itself is found where the first is, and that of both isn't found.
fn finds(alloc: Global) -> Result<bool, PlaceErr<Never>> {
    let Ok(tests) = numbers(alloc, 4) else {
        return Err(PlaceErr::NoMemory);
    };
    let mut tree = SplitTree::new(alloc, tests);
    let mut ask = Truths {
        asks: 0,
        highest: 0,
    };
    let _first = tree.place(0, &mut ask)?;
    let _second = tree.place(1, &mut ask)?;
    let same = tree.find(3, &mut ask);
    let other = tree.find(2, &mut ask);
    Ok(matches!(same, Ok(Some(0))) && matches!(other, Ok(None)))
}

#[test]
fn items_are_found_where_they_agree(rt: HostRuntime) {
    assert!(rt; matches!(finds(rt.alloc()), Ok(true)));
}

/// Whether numbers go where they should over a thousand tests: asked so often at each test, and so often at one of each hundred.
fn numbers_go(
    alloc: Global,
    rows: &[(u64, Placed)],
    lines: &[Shape],
    singly: u64,
    hundreds: u64,
) -> bool {
    let mut each = Singly { asks: 0 };
    let mut one = Hundreds { asks: 0 };
    match (
        places(alloc, &mut each, 1000, rows, lines),
        places(alloc, &mut one, 1000, rows, lines),
    ) {
        (Ok(true), Ok(true)) => each.asks == singly && one.asks == hundreds,
        _ => false,
    }
}

const EQUAL: &[(u64, Placed)] = &[(9, Placed::Fresh(0)), (9, Placed::Same(0))];

const NUMBERS: &[(u64, Placed)] = &[
    (9, Placed::Fresh(0)),
    (8, Placed::Fresh(1)),
    (9, Placed::Same(0)),
    (3, Placed::Fresh(2)),
];

const NUMBER_LINES: &[Shape] = &[
    Shape::Split {
        test: 800,
        count: 2,
    },
    Shape::Leaf(0),
    Shape::Split {
        test: 300,
        count: 2,
    },
    Shape::Leaf(1),
    Shape::Leaf(2),
];

#[test]
fn one_test_of_a_hundred_tells_equal_items(rt: HostRuntime) {
    assert!(rt; numbers_go(rt.alloc(), EQUAL, ONE_LINES, 2000, 20));
}

#[test]
fn one_test_of_a_hundred_gives_the_same_tree(rt: HostRuntime) {
    assert!(rt; numbers_go(rt.alloc(), NUMBERS, NUMBER_LINES, 4206, 48));
}
