//! Pools of test values, given or from a seed, and the tests that they make.
ghost use Rattle.std.specs.Prelude.{◌≡◌, ◌∷◌, [], length, IfOk};
ghost use Rattle.law_ids.specs.Table.{HasShape, IsFor};

use crate::samples::PLUS;
use crate::types::signature;
use law_gen::make_pools;
use law_pool::{Pools, given_pools};
use law_sig::{NoMemory, PoolRule, Seq, Sig, SortId, SymId, Tree};
use law_test::pools_of;
use law_value::{ValueBank, ValueId};
use std::alloc::Global;

/// One variable of the first sort, with two places, and two of the second, with three.
const PLACES: &str = "\
signature 2
size 1
budget 9
pairs 20
pools seed 3 height 1 count 2
sort A 1 2
con a
sort B 2 3
con b
explore
end
";

/// Two sorts with one constructor each.
const CONSTANTS: &str = "\
signature 1
vars 1
size 1
width 4
budget 10
pairs 20
pools seed 1 height 1 count 1
sort Q0
con C0
sort Q1
con C1
explore
end
";

/// How many tests there are, the places of two variables at test 2, and whether the tests 2 and 3 are flat.
#[derive(Clone, Copy, Debug, PartialEq, Eq)]
struct TestFacts {
    tests: u64,
    first: Option<u32>,
    second: Option<u32>,
    flat: (bool, bool),
}

/// The place of a variable at a test; `None` where there is no such variable.
fn place(sig: &Sig, pools: &Pools, test: u64, sort: SortId, index: u32) -> Option<u32>
    requires { IsFor sig.now pools.now }
{
    let vars = *sig.settings().vars.get(sort.0 as usize)?;
    if index < vars {
        Some(pools.digit(test, sort, index))
    } else {
        None
    }
}

fn facts(sig: &Sig, pools: &Pools) -> TestFacts
    requires { IsFor sig.now pools.now }
{
    TestFacts {
        tests: pools.tests(),
        first: place(sig, pools, 2, SortId(0), 0),
        second: place(sig, pools, 2, SortId(0), 1),
        flat: (pools.is_flat(2), pools.is_flat(3)),
    }
}

/// Of the pools that the signature gives.
fn of_given(alloc: Global, sig: &Sig) -> Result<Option<TestFacts>, NoMemory> {
    let Some(_) = sig.assignments() else {
        return Ok(None);
    };
    let PoolRule::Given(_) = &sig.settings().pools else {
        return Ok(None);
    };
    let mut bank = ValueBank::new(alloc);
    let pools = given_pools(alloc, sig, &mut bank)?;
    Ok(Some(facts(sig, &pools)))
}

const FACTS: TestFacts = TestFacts {
    tests: 4,
    first: Some(0),
    second: Some(1),
    flat: (false, true),
};

/// Whether they are so of addition.
fn are_facts(alloc: Global) -> bool {
    match signature(alloc, PLUS) {
        Some(sig) => of_given(alloc, &sig) == Ok(Some(FACTS)),
        None => false,
    }
}

#[test]
fn places_of_variables(rt: HostRuntime) {
    assert!(rt; are_facts(rt.alloc()));
}

/// The number of tests, and which of the tests 9 and 11 are flat, of the pools of a seed.
fn of_seed(alloc: Global, sig: &Sig) -> Option<(u64, bool, bool)> {
    let Some(_) = sig.assignments() else {
        return None;
    };
    let mut bank = ValueBank::new(alloc);
    let Ok(pools) = pools_of(alloc, sig, &mut bank) else {
        return None;
    };
    Some((pools.tests(), pools.is_flat(9), pools.is_flat(11)))
}

/// Two pools, for each of which there are 2 times 3 times 3 tests.
fn has_two_pools(alloc: Global) -> bool {
    match signature(alloc, PLACES) {
        Some(sig) => of_seed(alloc, &sig) == Some((36, true, false)),
        None => false,
    }
}

#[test]
fn tests_of_two_sorts(rt: HostRuntime) {
    assert!(rt; has_two_pools(rt.alloc()));
}

/// Whether there are four values, each the constructor of this number alone.
fn are_constants(alloc: Global, values: &[Tree], number: u32) -> bool {
    let constant = Tree::App(SymId(number), Seq::new(alloc));
    for value in values {
        if !value.is_same(&constant) {
            return false;
        }
    }
    values.len() == 4
}

/// Whether the values of a sort are its constructor.
fn has_constants(alloc: Global, pool: &Seq<Seq<Tree>>, sort: u32) -> bool {
    match pool.get(sort as usize) {
        Some(values) => are_constants(alloc, values.as_slice(), sort),
        None => false,
    }
}

/// The values of a seed as trees; `None` where the signature gives its own.
fn of_words(alloc: Global, sig: &Sig) -> Option<Seq<Seq<Seq<Tree>>>> {
    let Some(_) = sig.assignments() else {
        return None;
    };
    let PoolRule::Seeded { .. } = &sig.settings().pools else {
        return None;
    };
    let mut bank = ValueBank::new(alloc);
    match make_pools(alloc, sig, &mut bank) {
        Ok(pools) => pools.written(alloc, &bank).ok(),
        Err(_) => None,
    }
}

/// Whether there is one pool, and each of its values is the constructor of its sort.
fn are_all_constants(alloc: Global, pools: &[Seq<Seq<Tree>>]) -> bool {
    for pool in pools {
        if !has_constants(alloc, pool, 0) || !has_constants(alloc, pool, 1) {
            return false;
        }
    }
    pools.len() == 1
}

fn makes_constants(alloc: Global) -> bool {
    match signature(alloc, CONSTANTS) {
        Some(sig) => match of_words(alloc, &sig) {
            Some(pools) => are_all_constants(alloc, pools.as_slice()),
            None => false,
        },
        None => false,
    }
}

#[test]
fn values_from_a_seed(rt: HostRuntime) {
    assert!(rt; makes_constants(rt.alloc()));
}

/// One pool by hand: two values of the first sort, and three of the second.
fn by_hand(alloc: Global) -> Result<Seq<Seq<Seq<ValueId>>>, NoMemory>
    ensures { IfOk result (λ made. HasShape (2 ∷ 3 ∷ []) made × (length made ≡ 1)) }
{
    let mut first = Seq::new(alloc);
    first.push(ValueId(0))?;
    first.push(ValueId(1))?;
    let mut second = Seq::new(alloc);
    second.push(ValueId(2))?;
    second.push(ValueId(3))?;
    second.push(ValueId(2))?;
    let mut pool = Seq::new(alloc);
    pool.push(first)?;
    pool.push(second)?;
    let mut pools = Seq::new(alloc);
    pools.push(pool)?;
    Ok(pools)
}

/// The number of tests of the pool by hand, what the second variable of the second sort is at test 7, and whether the tests 7
/// and 8 are flat. `None` where the signature has other numbers of variables or other widths.
fn of_hand(alloc: Global, sig: &Sig) -> Result<Option<(u64, ValueId, bool, bool)>, NoMemory> {
    let Some(_) = sig.assignments() else {
        return Ok(None);
    };
    let settings = sig.settings();
    if settings.width.as_slice() != [2, 3].as_slice()
        || settings.vars.as_slice() != [1, 2].as_slice()
    {
        return Ok(None);
    }
    let pools = Pools::build(alloc, sig, by_hand(alloc)?)?;
    let value = pools.value_at(7, SortId(1), 1);
    Ok(Some((pools.tests(), value, pools.is_flat(7), pools.is_flat(8))))
}

/// At test 7 the variables read the places 1, 0 and 1, and at test 8 the places 0, 1 and 1.
fn is_of_hand(alloc: Global) -> bool {
    match signature(alloc, PLACES) {
        Some(sig) => of_hand(alloc, &sig) == Ok(Some((18, ValueId(3), false, true))),
        None => false,
    }
}

#[test]
fn pools_by_hand(rt: HostRuntime) {
    assert!(rt; is_of_hand(rt.alloc()));
}
