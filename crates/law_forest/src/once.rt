ghost use Rattle.std.specs.Prelude.{◌≡◌, ◌↔◌, IfOk, IsTrue};
ghost use Rattle.law_sig.specs.Lists.{In, Each, AreDistinct};
ghost use Rattle.law_checking.specs.Once.{HaveSame, AreOnce, AreAlike, AreTold};

use indexmap::IndexSet;
use law_sig::{NoMemory, Seq};
use law_value::ValueId;
use std::alloc::Global;

/// A table of these numbers.
fn set_of(alloc: Global, numbers: &[u64]) -> Result<IndexSet<u64>, NoMemory>
    ensures { IfOk result (λ set. HaveSame set.keys numbers.now) }
{
    let mut set = IndexSet::new(alloc);
    for number in numbers {
        let Ok(_) = set.insert(*number) else {
            return Err(NoMemory);
        };
    }
    Ok(set)
}

/// Whether each number is among others.
fn all_in(alloc: Global, numbers: &[u64], others: &[u64]) -> Result<bool, NoMemory>
    ensures { IfOk result (λ yes. IsTrue yes ↔ Each (λ n. In n others.now) numbers.now) }
{
    let set = set_of(alloc, others)?;
    for number in numbers {
        if !set.contains(number) {
            return Ok(false);
        }
    }
    Ok(true)
}

/// Whether no number stands twice.
fn are_distinct(alloc: Global, numbers: &[u64]) -> Result<bool, NoMemory>
    ensures { IfOk result (λ yes. IsTrue yes ↔ AreDistinct numbers.now) }
{
    let mut set = IndexSet::new(alloc);
    for number in numbers {
        let Ok(is_new) = set.insert(*number) else {
            return Err(NoMemory);
        };
        if !is_new {
            return Ok(false);
        }
    }
    Ok(true)
}

/// Whether these are exactly the wanted numbers, each once.
pub fn are_once(alloc: Global, given: &[u64], wanted: &[u64]) -> Result<bool, NoMemory>
    ensures { IfOk result (λ yes. IsTrue yes ↔ AreOnce given.now wanted.now) }
{
    if !are_distinct(alloc, given)? {
        return Ok(false);
    }
    if !all_in(alloc, given, wanted)? {
        return Ok(false);
    }
    all_in(alloc, wanted, given)
}

/// Whether two values are one.
fn is_same(value: &ValueId, other: &ValueId) -> bool
    ensures { IsTrue result ↔ (value.now.0 ≡ other.now.0) }
{
    value.0 == other.0
}

/// Whether all values are one.
fn are_alike(values: &[ValueId]) -> bool
    ensures { IsTrue result ↔ AreAlike values.now }
{
    let Some((first, rest)) = values.split_first() else {
        return true;
    };
    for at in 0..rest.len() {
        let value = &rest[at];
        if !is_same(value, first) {
            return false;
        }
    }
    true
}

/// Whether values are equal exactly where they are in one list.
pub fn are_told(alloc: Global, kids: &[Seq<ValueId>]) -> Result<bool, NoMemory>
    ensures { IfOk result (λ yes. IsTrue yes ↔ AreTold kids.now) }
{
    let mut heads = Seq::new(alloc);
    for kid in kids {
        if !are_alike(kid.as_slice()) {
            return Ok(false);
        }
        if let Some(first) = kid.as_slice().first() {
            heads.push(first.0)?;
        }
    }
    are_distinct(alloc, heads.as_slice())
}
