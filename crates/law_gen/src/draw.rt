ghost use Rattle.std.specs.Prelude.{◌≡◌, ℕ, ◌<◌, ◌≤◌, length, IfOk, IfErr, OnOk, IsTrue, map};
ghost use Rattle.law_sig.specs.Lists.{Each};
ghost use Rattle.law_sig.specs.Trees.{node_count};
ghost use Rattle.law_sig.specs.WellFormed.{IsDeclared, is_within_height};
ghost use Rattle.law_sig.specs.declared.tree.SortId.{SortId};
ghost use Rattle.law_ids.specs.Values.{AreOf, trees_of, Grows};
ghost use Rattle.law_ids.specs.Table.{AreHeld, pools_of};
ghost use Rattle.law_draws.specs.Draws.{value_drawn, values_drawn, pool_drawn, pools_drawn, generator_of};
ghost use Rattle.law_draws.specs.Sizes.{AreSmall, HasLarge, IsFirstIn, IsFirst};
ghost use Rattle.law_gen.specs.Made.{IsReady, IsMade, AreMade, WhereLarge, WhereTooLarge};

use super::error::{GenErr, Stop};
use law_sig::{Seq, Sig, SortId, SymId};
use law_value::{ValueBank, ValueId};
use rand_core::utils::NextWord;
use rand_pcg::Lcg64Xsh32;
use std::alloc::Global;

/// The generator, and how many nodes the value at work may still have.
#[derive(Drop)]
pub struct Draws {
    pub rng: Lcg64Xsh32,
    pub room: u32,
}

/// What values are made by: a signature, and the constructors that may be chosen by height left and sort.
#[derive(Drop)]
pub struct Maker<'s> {
    pub alloc: Global,
    pub sig: &'s Sig,
    pub choices: Seq<Seq<Seq<SymId>>>,
}

impl<'s> Maker<'s> {
    /// A value of a sort with a height left. Each word makes one node of it, so none is taken once there is no room.
    fn draw_value(
        &self,
        draws: &mut Draws,
        bank: &mut ValueBank,
        height: u32,
        sort: SortId,
    ) -> Result<ValueId, Stop>
        requires ready { IsReady self.now.sig.now height self.now.choices }
        requires declared { IsDeclared self.now.sig.now sort }
        requires within { IsTrue (is_within_height self.now.sig.now height sort) }
        ensures made { IfOk result (λ v. IsMade (value_drawn self.now.sig.now height sort draws.old.rng) bank.new v draws.new.rng draws.old.room draws.new.room) }
        ensures large { IfErr result (λ e. WhereLarge (draws.old.room < node_count (value_drawn self.now.sig.now height sort draws.old.rng).made) e) }
        ensures grows { Grows bank.old bank.new }
    {
        if draws.room == 0 {
            return Err(Stop::TooLarge);
        }
        draws.room -= 1;
        let level = self.choices.as_slice()[height as usize].as_slice();
        let choices = level[sort.0 as usize].as_slice();
        let word = draws.rng.next_word() as usize;
        let sym = choices[word % choices.len()];
        let mut fields = Seq::new(self.alloc);
        for field_sort in self.sig.args_of(sym) {
            let field = self.draw_value(draws, bank, height - 1, *field_sort)?;
            let Ok(()) = fields.push(field) else {
                return Err(Stop::NoMemory);
            };
        }
        match bank.make(sym, fields.as_slice()) {
            Ok(value) => Ok(value),
            Err(_) => Err(Stop::NoMemory),
        }
    }

    /// As many values of a sort as its width.
    fn draw_values(
        &self,
        draws: &mut Draws,
        bank: &mut ValueBank,
        height: u32,
        sort: SortId,
    ) -> Result<Seq<ValueId>, Stop>
        requires ready { IsReady self.now.sig.now height self.now.choices }
        requires declared { IsDeclared self.now.sig.now sort }
        requires within { IsTrue (is_within_height self.now.sig.now height sort) }
        ensures made { IfOk result (λ ids. AreMade (values_drawn self.now.sig.now height sort draws.old.rng) (AreOf bank.new) (trees_of bank.new) ids draws.new.rng) }
        ensures small { OnOk result (AreSmall (values_drawn self.now.sig.now height sort draws.old.rng).made) }
        ensures large { IfErr result (λ e. WhereLarge (HasLarge (values_drawn self.now.sig.now height sort draws.old.rng).made) e) }
        ensures grows { Grows bank.old bank.new }
    {
        let width = self.sig.settings().width.as_slice()[sort.0 as usize];
        let mut values = Seq::new(self.alloc);
        for place in 0..width {
            draws.room = 4096;
            let value = self.draw_value(draws, bank, height, sort)?;
            let Ok(()) = values.push(value) else {
                return Err(Stop::NoMemory);
            };
        }
        Ok(values)
    }

    /// A pool: for each sort its values. The number of the pool is told where a value is too large.
    pub fn draw_pool(
        &self,
        draws: &mut Draws,
        bank: &mut ValueBank,
        height: u32,
        pool: u32,
    ) -> Result<Seq<Seq<ValueId>>, GenErr>
        requires ready { IsReady self.now.sig.now height self.now.choices }
        requires within { (sort : SortId) → IsDeclared self.now.sig.now sort → IsTrue (is_within_height self.now.sig.now height sort) }
        ensures made { IfOk result (λ ids. AreMade (pool_drawn self.now.sig.now height draws.old.rng) (Each (AreOf bank.new)) (map (trees_of bank.new)) ids draws.new.rng) }
        ensures small { OnOk result (Each AreSmall (pool_drawn self.now.sig.now height draws.old.rng).made) }
        ensures large { IfErr result (λ e. WhereTooLarge (λ p s. (p ≡ pool) × IsFirstIn (pool_drawn self.now.sig.now height draws.old.rng).made s) e) }
        ensures grows { Grows bank.old bank.new }
    {
        let mut sorts = Seq::new(self.alloc);
        for at in 0..self.sig.sorts() {
            let sort = SortId(at);
            let values = match self.draw_values(draws, bank, height, sort) {
                Ok(values) => values,
                Err(Stop::TooLarge) => return Err(GenErr::ValueTooLarge { pool, sort }),
                Err(Stop::NoMemory) => return Err(GenErr::NoMemory),
            };
            let Ok(()) = sorts.push(values) else {
                return Err(GenErr::NoMemory);
            };
        }
        Ok(sorts)
    }

    /// Pools from a seed, one after the other.
    pub fn draw_pools(
        &self,
        bank: &mut ValueBank,
        seed: u64,
        height: u32,
        count: u32,
    ) -> Result<Seq<Seq<Seq<ValueId>>>, GenErr>
        requires ready { IsReady self.now.sig.now height self.now.choices }
        requires within { (sort : SortId) → IsDeclared self.now.sig.now sort → IsTrue (is_within_height self.now.sig.now height sort) }
        ensures held { IfOk result (λ ids. AreHeld bank.new ids) }
        ensures made { IfOk result (λ ids. pools_of bank.new ids ≡ (pools_drawn self.now.sig.now height count (generator_of seed)).made) }
        ensures small { OnOk result (Each (Each AreSmall) (pools_drawn self.now.sig.now height count (generator_of seed)).made) }
        ensures large { IfErr result (λ e. WhereTooLarge (IsFirst (pools_drawn self.now.sig.now height count (generator_of seed)).made) e) }
        ensures grows { Grows bank.old bank.new }
    {
        let mut draws = Draws {
            rng: Lcg64Xsh32::new(seed, 0),
            room: 0,
        };
        let mut pools = Seq::new(self.alloc);
        for number in 0..count {
            let pool = self.draw_pool(&mut draws, bank, height, number)?;
            let Ok(()) = pools.push(pool) else {
                return Err(GenErr::NoMemory);
            };
        }
        Ok(pools)
    }
}
