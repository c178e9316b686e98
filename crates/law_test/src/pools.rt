ghost use Rattle.std.specs.Prelude.{◌≤◌, IfOk, IfErr, OnOk};
ghost use Rattle.law_sig.specs.Lists.{Each};
ghost use Rattle.law_sig.specs.Tests.{assignments};
ghost use Rattle.law_ids.specs.Values.{Grows};
ghost use Rattle.law_draws.specs.Draws.{pools_by};
ghost use Rattle.law_gen.specs.Made.{WhereTooLarge};
ghost use Rattle.law_draws.specs.Sizes.{AreSmall, IsFirst};
ghost use Rattle.law_testing.specs.Values.{ArePools};

use law_gen::{GenErr, make_pools};
use law_pool::{Pools, given_pools};
use law_sig::{PoolRule, Sig};
use law_value::ValueBank;
use std::alloc::Global;

/// The pools of a signature, given or from its seed. What was added to the bank before a refusal stays there.
pub fn pools_of(alloc: Global, sig: &Sig, bank: &mut ValueBank) -> Result<Pools, GenErr>
    requires { assignments sig.now ≤ 4096 }
    ensures pools { IfOk result (λ pools. ArePools sig.now bank.new pools) }
    ensures small { OnOk result (Each (Each AreSmall) (pools_by sig.now)) }
    ensures large { IfErr result (WhereTooLarge (IsFirst (pools_by sig.now))) }
    ensures grows { Grows bank.old bank.new }
{
    match &sig.settings().pools {
        PoolRule::Given(_) => match given_pools(alloc, sig, bank) {
            Ok(pools) => Ok(pools),
            Err(_) => Err(GenErr::NoMemory),
        },
        PoolRule::Seeded { .. } => make_pools(alloc, sig, bank),
    }
}
