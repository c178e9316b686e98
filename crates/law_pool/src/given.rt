ghost use Rattle.std.specs.Prelude.{◌≡◌, ◌≤◌, IfOk, IsTrue, length, map};
ghost use Rattle.law_sig.specs.Lists.{Each};
ghost use Rattle.law_sig.specs.Tests.{assignments};
ghost use Rattle.law_ids.specs.Values.{Grows, AreOf, trees_of, is_plain};
ghost use Rattle.law_ids.specs.Table.{IsFor, AreHeld, pools_of, is_given, given_in};

use super::pools::Pools;
use law_sig::{NoMemory, PoolRule, Seq, Sig, Tree};
use law_value::{ValueBank, ValueId};
use std::alloc::Global;

/// The pools that a signature gives. What was added to the bank before a refusal stays there.
pub fn given_pools(alloc: Global, sig: &Sig, bank: &mut ValueBank) -> Result<Pools, NoMemory>
    requires few { assignments sig.now ≤ 4096 }
    requires given { IsTrue (is_given sig.now.settings.pools) }
    ensures fits { IfOk result (λ pools. IsFor sig.now pools × AreHeld bank.new pools.ids) }
    ensures values { IfOk result (λ pools. pools_of bank.new pools.ids ≡ given_in sig.now.settings.pools) }
    ensures grows { Grows bank.old bank.new }
{
    let PoolRule::Given(given) = &sig.settings().pools else {
        unreachable!()
    };
    let mut pools = Seq::new(alloc);
    for pool in given.as_slice() {
        pools.push(read_pool(alloc, bank, pool.as_slice())?)?;
    }
    Pools::build(alloc, sig, pools)
}

/// The ids of a pool's values.
fn read_pool(
    alloc: Global,
    bank: &mut ValueBank,
    pool: &[Seq<Tree>],
) -> Result<Seq<Seq<ValueId>>, NoMemory>
    requires { Each (Each (λ tree. IsTrue (is_plain tree))) pool.now }
    ensures held { IfOk result (λ ids. Each (AreOf bank.new) ids) }
    ensures values { IfOk result (λ ids. map (trees_of bank.new) ids ≡ pool.now) }
    ensures grows { Grows bank.old bank.new }
{
    let mut sorts = Seq::new(alloc);
    for values in pool {
        sorts.push(read_values(alloc, bank, values.as_slice())?)?;
    }
    Ok(sorts)
}

/// The ids of a list of values.
fn read_values(
    alloc: Global,
    bank: &mut ValueBank,
    values: &[Tree],
) -> Result<Seq<ValueId>, NoMemory>
    requires { Each (λ tree. IsTrue (is_plain tree)) values.now }
    ensures held { IfOk result (λ ids. AreOf bank.new ids) }
    ensures values { IfOk result (λ ids. trees_of bank.new ids ≡ values.now) }
    ensures grows { Grows bank.old bank.new }
{
    let mut ids = Seq::new(alloc);
    for value in values {
        ids.push(bank.read_value(value)?)?;
    }
    Ok(ids)
}
