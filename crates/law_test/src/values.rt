ghost use Rattle.std.specs.Prelude.{◌≡◌, ◌<◌, ◌^◌, List, IfOk};
ghost use Rattle.law_sig.specs.declared.tree.Tree.{Tree};
ghost use Rattle.law_own.specs.Own.{vars_of};
ghost use Rattle.law_ids.specs.Table.{IsFor};
ghost use Rattle.law_pool.specs.Wheels.{IsTrackOf};
ghost use Rattle.law_testing.specs.Values.{ArePools, tests_by};

use law_pool::{OwnTests, Pools};
use law_sig::{NoMemory, Sig, Tree};
use std::alloc::Global;

/// A signature and its pools, on which terms are tested.
#[derive(Clone, Copy)]
pub struct Tester<'s> {
    pub alloc: Global,
    pub sig: &'s Sig,
    pub pools: &'s Pools,
}

impl<'s> Tester<'s> {
    /// How many tests there are.
    pub fn tests(&self) -> u64
        ensures { (bank : List Tree) → ArePools self.now.sig.now bank self.now.pools.now → result ≡ tests_by self.now.sig.now }
    {
        self.pools.tests()
    }

    /// The own tests of the variables of two terms.
    pub fn own_tests(&self, left: &Tree, right: &Tree) -> Result<OwnTests, NoMemory>
        requires { IsFor self.now.sig.now self.now.pools.now }
        ensures own { IfOk result (IsTrackOf self.now.sig.now (vars_of left.now right.now)) }
        ensures few { (bank : List Tree) → ArePools self.now.sig.now bank self.now.pools.now → tests_by self.now.sig.now < 2 ^ 63 }
    {
        let _few = self.pools.tests();
        OwnTests::of(self.alloc, self.sig, left, right)
    }
}
