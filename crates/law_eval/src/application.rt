ghost use Rattle.std.specs.Prelude.{◌≡◌, ◌<◌, ◌^◌, Some, None, length, IfOk, IsErrOf};
ghost use Rattle.law_sig.specs.Evaluate.{ap};
ghost use Rattle.law_ids.specs.Values.{IsOf, AreOf, tree_of, trees_of, Grows};

use super::error::EvalErr;
use super::steps::run;
use super::work::Work;
use law_sig::{Sig, SymId};
use law_value::{ValueBank, ValueId};
use std::alloc::Global;

/// What an application needs besides its values: its tasks, its rows and the functions that run. It is kept from one
/// application to the next, so that the next one takes no more memory where the room is there already. No application leaves
/// anything in it that counts for another.
#[derive(Drop)]
pub struct Buffers<'s> {
    work: Work<'s>,
}

impl<'s> Buffers<'s> {
    /// Buffers without room. They take no memory.
    pub fn new(alloc: Global) -> Buffers<'s> {
        Buffers {
            work: Work::new(alloc),
        }
    }
}

/// The value and the cost of a symbol applied to these values of the bank. Calling a function costs 1, making a
/// constructor costs 1, and naming a field or a parameter costs nothing. `Over` comes exactly where there is no value at
/// a cost within the budget. The bank only grows, also where there is no answer.
pub fn apply(
    alloc: Global,
    sig: &Sig,
    bank: &mut ValueBank,
    sym: SymId,
    args: &[ValueId],
    budget: u64,
) -> Result<(ValueId, u64), EvalErr>
    requires held { AreOf bank.old args.now }
    requires few { length args.now < 2 ^ 32 }
    ensures id { IfOk result (λ r. IsOf bank.new r.0) }
    ensures value { IfOk result (λ r. ap sig.now sym (trees_of bank.old args.now) budget ≡ Some (record { value = tree_of bank.new r.0; cost = r.1 })) }
    ensures over { IsErrOf result EvalErr.Over → ap sig.now sym (trees_of bank.old args.now) budget ≡ None }
    ensures grows { Grows bank.old bank.new }
{
    let mut buffers = Buffers::new(alloc);
    apply_with(&mut buffers, alloc, sig, bank, sym, args, budget)
}

/// The same, in buffers that are kept.
pub fn apply_with<'s>(
    buffers: &mut Buffers<'s>,
    alloc: Global,
    sig: &'s Sig,
    bank: &mut ValueBank,
    sym: SymId,
    args: &[ValueId],
    budget: u64,
) -> Result<(ValueId, u64), EvalErr>
    requires held { AreOf bank.old args.now }
    requires few { length args.now < 2 ^ 32 }
    ensures id { IfOk result (λ r. IsOf bank.new r.0) }
    ensures value { IfOk result (λ r. ap sig.now sym (trees_of bank.old args.now) budget ≡ Some (record { value = tree_of bank.new r.0; cost = r.1 })) }
    ensures over { IsErrOf result EvalErr.Over → ap sig.now sym (trees_of bank.old args.now) budget ≡ None }
    ensures grows { Grows bank.old bank.new }
{
    let _well_formed = sig.settings();
    let count = args.len() as u32;
    buffers.work.begin(alloc, sym, count, args, budget)?;
    run(alloc, sig, bank, &mut buffers.work)?;
    let value = buffers.work.answer()?;
    Ok((value, budget - buffers.work.left))
}
