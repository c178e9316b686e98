ghost use Rattle.std.specs.Prelude.{◌≡◌, ◌≤◌, IfOk, IfErr, OnOk, IsTrue};
ghost use Rattle.law_sig.specs.Lists.{Each};
ghost use Rattle.law_sig.specs.Tests.{assignments};
ghost use Rattle.law_ids.specs.Values.{Grows};
ghost use Rattle.law_ids.specs.Table.{IsFor, AreHeld, pools_of};
ghost use Rattle.law_draws.specs.Draws.{is_seeded, seeded_pools};
ghost use Rattle.law_draws.specs.Sizes.{AreSmall, IsFirst};
ghost use Rattle.law_gen.specs.Made.{WhereTooLarge};

use super::choices::choices_up_to;
use super::draw::Maker;
use super::error::GenErr;
use law_pool::Pools;
use law_sig::{PoolRule, Sig};
use law_value::ValueBank;
use std::alloc::Global;

/// The pools of a signature's seed. What was added to the bank before a refusal stays there.
pub fn make_pools(alloc: Global, sig: &Sig, bank: &mut ValueBank) -> Result<Pools, GenErr>
    requires few { assignments sig.now ≤ 4096 }
    requires seeded { IsTrue (is_seeded sig.now.settings.pools) }
    ensures fits { IfOk result (λ pools. IsFor sig.now pools × AreHeld bank.new pools.ids) }
    ensures values { IfOk result (λ pools. pools_of bank.new pools.ids ≡ seeded_pools sig.now) }
    ensures small { OnOk result (Each (Each AreSmall) (seeded_pools sig.now)) }
    ensures large { IfErr result (λ e. WhereTooLarge (IsFirst (seeded_pools sig.now)) e) }
    ensures grows { Grows bank.old bank.new }
{
    let PoolRule::Seeded {
        seed,
        height,
        count,
    } = &sig.settings().pools
    else {
        unreachable!()
    };
    let Ok(choices) = choices_up_to(alloc, sig, *height) else {
        return Err(GenErr::NoMemory);
    };
    let maker = Maker {
        alloc,
        sig,
        choices,
    };
    let values = maker.draw_pools(bank, *seed, *height, *count)?;
    match Pools::build(alloc, sig, values) {
        Ok(pools) => Ok(pools),
        Err(_) => Err(GenErr::NoMemory),
    }
}
