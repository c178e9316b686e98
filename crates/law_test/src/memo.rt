ghost use Rattle.std.specs.Prelude.{◌≡◌, List, IfSome, IfOk, OnOk, IsTrue};
ghost use Rattle.law_sig.specs.declared.tree.Tree.{Tree};
ghost use Rattle.law_sig.specs.declared.parts.SigParts.{SigParts};
ghost use Rattle.law_test.specs.Memo.{row_of, IsRight, AreRight};

use law_sig::{NoMemory, SymId};
use law_value::{ValueBank, ValueId};
use std::alloc::Global;

/// How many places a memo has at first, and at most.
const FIRST: usize = 128;

const MOST: usize = 65_536;

/// A symbol over at most three values. What stands behind the last value counts for nothing.
#[derive(Clone, Copy)]
pub struct Key {
    pub sym: SymId,
    pub count: u32,
    pub first: ValueId,
    pub second: ValueId,
    pub third: ValueId,
}

/// A symbol over values, and the value that it gives.
#[derive(Clone, Copy)]
pub struct Known {
    pub key: Key,
    pub value: ValueId,
}

/// What symbols gave of values, each at a place that its key tells (direct-mapped): the last one that was kept at a place
/// stands there.
#[derive(Drop)]
pub struct Memo {
    pub places: Vec<Option<Known>>,
    pub fresh: usize,
}

/// A symbol over these values, if there are at most three.
pub fn key_of(sym: SymId, ids: &[ValueId]) -> Option<Key>
    ensures { IfSome result (λ key. (key.sym ≡ sym) × (row_of key ≡ ids.now)) }
{
    let none = ValueId(0);
    let (count, first, second, third) = match ids {
        [] => (0, none, none, none),
        [first] => (1, *first, none, none),
        [first, second] => (2, *first, *second, none),
        [first, second, third] => (3, *first, *second, *third),
        _ => return None,
    };
    Some(Key {
        sym,
        count,
        first,
        second,
        third,
    })
}

/// Whether two keys are one.
fn is_same(key: &Key, other: &Key) -> bool
    ensures { IsTrue result → key.now ≡ other.now }
{
    if key.sym.0 != other.sym.0 {
        return false;
    }
    if key.count != other.count {
        return false;
    }
    if !ValueBank::same(key.first, other.first) {
        return false;
    }
    if !ValueBank::same(key.second, other.second) {
        return false;
    }
    ValueBank::same(key.third, other.third)
}

/// A number that scatters keys.
fn scattered(key: &Key) -> usize {
    let ids = (key.first.0.wrapping_mul(31).wrapping_add(key.second.0))
        .wrapping_mul(31)
        .wrapping_add(key.third.0);
    let all = ids
        .wrapping_mul(64)
        .wrapping_add(key.sym.0 as u64)
        .wrapping_mul(0x9E37_79B9_7F4A_7C15);
    (all >> 32) as usize
}

/// So many empty places.
fn empty(alloc: Global, count: usize) -> Result<Vec<Option<Known>>, NoMemory>
    ensures { IfOk result (λ places. (parts : SigParts) (bank : List Tree) → AreRight parts bank places.items) }
{
    let mut places = Vec::new(alloc);
    for _at in 0..count {
        let Ok(()) = places.push(None) else {
            return Err(NoMemory);
        };
    }
    Ok(places)
}

impl Memo {
    /// The memo that knows nothing. It takes no memory.
    pub fn new(alloc: Global) -> Memo
        ensures { (parts : SigParts) (bank : List Tree) → AreRight parts bank result.places.items }
    {
        Memo {
            places: Vec::new(alloc),
            fresh: 0,
        }
    }

    /// What is known of a key.
    pub fn get(&self, key: &Key) -> Option<ValueId>
        ensures { (parts : SigParts) (bank : List Tree) → AreRight parts bank self.now.places.items → IfSome result (λ v. IsRight parts bank (record { key = key.now; value = v })) }
    {
        let count = self.places.len();
        if count == 0 {
            return None;
        }
        let Some(known) = self.places[scattered(key) % count] else {
            return None;
        };
        if is_same(&known.key, key) {
            Some(known.value)
        } else {
            None
        }
    }

    /// Gives the memo twice as many places, all empty, once as many values were kept as it has, and it may have more.
    fn grow(&mut self, alloc: Global) -> Result<(), NoMemory>
        ensures { (parts : SigParts) (bank : List Tree) → AreRight parts bank self.old.places.items → AreRight parts bank self.new.places.items }
    {
        let count = self.places.len();
        if self.fresh < count {
            return Ok(());
        }
        if count >= MOST {
            return Ok(());
        }
        self.places = empty(alloc, if count == 0 { FIRST } else { 2 * count })?;
        self.fresh = 0;
        Ok(())
    }

    /// Keeps a value.
    pub fn keep(&mut self, alloc: Global, known: Known) -> Result<(), NoMemory>
        ensures { (parts : SigParts) (bank : List Tree) → AreRight parts bank self.old.places.items → IsRight parts bank known → AreRight parts bank self.new.places.items }
    {
        self.grow(alloc)?;
        let count = self.places.len();
        if count == 0 {
            return Ok(());
        }
        let at = scattered(&known.key) % count;
        self.places[at] = Some(known);
        self.fresh = self.fresh.saturating_add(1);
        Ok(())
    }
}
