ghost use Rattle.std.specs.Prelude.{◌≡◌, ℕ, ◌+◌, ◌*◌, ◌<◌, ◌≤◌, ◌^◌, ◌↔◌, List, length, map, IfOk, IsTrue, Some};
ghost use Rattle.law_sig.specs.Tests.{assignments, digit, test_count, IsFlat, pool_value, value_at};
ghost use Rattle.law_sig.specs.declared.tree.Tree.{Tree};
ghost use Rattle.law_sig.specs.declared.parts.SigParts.{SigParts};
ghost use Rattle.law_ids.specs.Values.{IsOf, tree_of};
ghost use Rattle.law_pool.specs.Kept.{IsPlaces};
ghost use Rattle.law_ids.specs.Table.{PoolTable, IsFor, HasShape, AreHeld, pools_of, id_at, ReadsOnePlace, vars_of, width_of, tests_of};

use super::written::write_pool;
use law_sig::{NoMemory, Seq, Sig, SortId, Tree};
use law_value::{ValueBank, ValueId};
use std::alloc::Global;
use std::marker::Model;

/// How the variables of one sort read their places: how many variables there are, how many values a pool has for them,
/// and in how many ways the variables of the sorts before can be given places.
#[derive(Clone, Copy, Debug)]
struct SortPlaces {
    vars: u32,
    width: u32,
    step: u64,
}

/// Test values of each sort in some pools, and the tests that they make for a signature's variables. Contracts see
/// each sort's number of variables and of values in a pool, and the ids of the values by pool, sort and place.
#[derive(Debug, Drop)]
pub struct Pools {
    places: Seq<SortPlaces>,
    assignments: u64,
    values: Seq<Seq<Seq<ValueId>>>,
}

impl Model for Pools {
    ghost use Rattle.law_ids.specs.Table.{PoolTable};
    ghost use Rattle.law_pool.specs.Kept.{table_kept, AreKept};

    ghost Value = { PoolTable };

    ghost view = { λ pools. table_kept pools.places pools.values };

    ghost invariant = { λ pools. AreKept pools.places pools.assignments pools.values };
}

impl Pools {
    /// Pools of these values for a signature, whose variables can be given places in at most 4,096 ways. Each pool has
    /// for each sort, in order, as many values as the sort's width.
    pub fn build(
        alloc: Global,
        sig: &Sig,
        values: Seq<Seq<Seq<ValueId>>>,
    ) -> Result<Pools, NoMemory>
        requires few { assignments sig.now ≤ 4096 }
        requires shape { HasShape sig.now.settings.width values }
        requires pools { length values < 2 ^ 32 }
        ensures { IfOk result (λ pools. IsFor sig.now pools × (pools.ids ≡ values)) }
    {
        let settings = sig.settings();
        let mut places = Seq::new(alloc);
        let mut step = 1u64;
        for (at, vars) in settings.vars.as_slice().iter().enumerate() {
            let width = settings.width.as_slice()[at];
            places.push(SortPlaces {
                vars: *vars,
                width,
                step,
            })?;
            step *= (width as u64).pow(*vars);
        }
        Ok(Pools {
            places,
            assignments: step,
            values,
        })
    }

    /// How many tests there are: every way to give the variables places, of which there are at most 4,096, for each pool.
    pub fn tests(&self) -> u64
        ensures tests { (parts : SigParts) (bank : List Tree) → IsFor parts self.now → result ≡ test_count parts (pools_of bank self.now.ids) }
        ensures assignments { (parts : SigParts) → IsFor parts self.now → assignments parts ≤ 4096 }
        ensures few { result < 2 ^ 63 }
    {
        self.values.len() as u64 * self.assignments
    }

    /// How the variables of a sort read their places.
    fn places_of(&self, sort: SortId) -> SortPlaces
        requires { sort.0 < length self.now.vars }
        ensures { IsPlaces self.now sort.0 result }
    {
        self.places.as_slice()[sort.0 as usize]
    }

    /// The place in the pool that a variable reads at a test.
    pub fn digit(&self, test: u64, sort: SortId, index: u32) -> u32
        requires { index < vars_of self.now sort }
        ensures place { (parts : SigParts) → IsFor parts self.now → result ≡ digit parts test sort index }
        ensures within { result < width_of self.now sort }
        ensures declared { sort.0 < length self.now.width }
    {
        let places = self.places_of(sort);
        let width = places.width as u64;
        let before = places.step * width.pow(index);
        (test % self.assignments / before % width) as u32
    }

    /// Whether all variables of a sort read the same place at a test.
    fn reads_one_place(&self, test: u64, sort: SortId) -> bool
        requires { sort.0 < length self.now.vars }
        ensures { (parts : SigParts) → IsFor parts self.now → (IsTrue result ↔ ReadsOnePlace parts test sort) }
    {
        for index in 1..self.places_of(sort).vars {
            if self.digit(test, sort, index) != self.digit(test, sort, 0) {
                return false;
            }
        }
        true
    }

    /// Whether at a test all variables of one sort read the same place, for each sort.
    pub fn is_flat(&self, test: u64) -> bool
        ensures { (parts : SigParts) → IsFor parts self.now → (IsTrue result ↔ IsFlat parts test) }
    {
        for at in 0..self.places.len() as u32 {
            if !self.reads_one_place(test, SortId(at)) {
                return false;
            }
        }
        true
    }

    /// The value at a place of a pool.
    pub fn pool_value(&self, pool: u32, sort: SortId, place: u32) -> ValueId
        requires pool { pool < length self.now.ids }
        requires sort { sort.0 < length self.now.width }
        requires place { place < width_of self.now sort }
        ensures id { id_at self.now.ids pool sort place ≡ Some result }
        ensures value { (bank : List Tree) → pool_value (pools_of bank self.now.ids) pool sort place ≡ Some (tree_of bank result) }
        ensures held { (bank : List Tree) → AreHeld bank self.now.ids → IsOf bank result }
    {
        let sorts = self.values.as_slice()[pool as usize].as_slice();
        let values = sorts[sort.0 as usize].as_slice();
        values[place as usize]
    }

    /// The value of a variable at a test.
    pub fn value_at(&self, test: u64, sort: SortId, index: u32) -> ValueId
        requires test { test < tests_of self.now }
        requires index { index < vars_of self.now sort }
        ensures value { (parts : SigParts) (bank : List Tree) → IsFor parts self.now → value_at parts (pools_of bank self.now.ids) test sort index ≡ Some (tree_of bank result) }
        ensures held { (bank : List Tree) → AreHeld bank self.now.ids → IsOf bank result }
    {
        let place = self.digit(test, sort, index);
        let pool = test / self.assignments;
        self.pool_value(pool as u32, sort, place)
    }

    /// All values as trees, by pool, sort and place.
    pub fn written(&self, alloc: Global, bank: &ValueBank) -> Result<Seq<Seq<Seq<Tree>>>, NoMemory>
        requires { AreHeld bank.now self.now.ids }
        ensures { IfOk result (λ pools. pools ≡ pools_of bank.now self.now.ids) }
    {
        let mut pools = Seq::new(alloc);
        for pool in self.values.as_slice() {
            pools.push(write_pool(alloc, bank, pool.as_slice())?)?;
        }
        Ok(pools)
    }
}
