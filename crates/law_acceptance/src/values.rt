//! Values that are kept once, and what an application of a function gives and costs.
use crate::samples::PLUS;
use crate::types::signature;
use law_eval::{Buffers, EvalErr, apply, apply_with};
use law_sig::{NoMemory, Sig, SymId};
use law_value::ValueBank;
use std::alloc::Global;

const ZERO: SymId = SymId(0);

const NEXT: SymId = SymId(1);

const SUM: SymId = SymId(2);

#[test]
fn each_value_is_kept_once(rt: HostRuntime) -> Result<(), NoMemory> {
    let mut bank = ValueBank::new(rt.alloc());
    let zero = bank.make(ZERO, &[])?;
    let again = bank.make(ZERO, &[])?;
    assert!(rt; ValueBank::same(zero, again));
    let one = bank.make(NEXT, &[zero])?;
    assert!(rt; !ValueBank::same(zero, one));
    assert_eq!(rt; bank.head(one), NEXT);
    assert_eq!(rt; bank.fields(one), 1);
    assert_eq!(rt; bank.field(one, 0), zero);
    assert_eq!(rt; bank.nodes(one), 2);
    let tree = bank.write_value(one)?;
    assert_eq!(rt; tree.size(), 2);
    assert_eq!(rt; bank.read_value(&tree)?, one);
    Ok(())
}

/// What the sum of one and zero costs within a budget, where it is one.
fn cost(alloc: Global, sig: &Sig, budget: u64) -> Result<Option<u64>, EvalErr> {
    let mut bank = ValueBank::new(alloc);
    let zero = bank.make(ZERO, &[])?;
    let one = bank.make(NEXT, &[zero])?;
    let (sum, cost) = apply(alloc, sig, &mut bank, SUM, &[one, zero], budget)?;
    if ValueBank::same(sum, one) {
        Ok(Some(cost))
    } else {
        Ok(None)
    }
}

/// The same in buffers that are kept, and in a bank of its own.
fn cost_in<'s>(
    buffers: &mut Buffers<'s>,
    alloc: Global,
    sig: &'s Sig,
    budget: u64,
) -> Result<Option<u64>, EvalErr> {
    let mut bank = ValueBank::new(alloc);
    let zero = bank.make(ZERO, &[])?;
    let one = bank.make(NEXT, &[zero])?;
    let (sum, cost) = apply_with(buffers, alloc, sig, &mut bank, SUM, &[one, zero], budget)?;
    if ValueBank::same(sum, one) {
        Ok(Some(cost))
    } else {
        Ok(None)
    }
}

/// `plus` is called twice, and a successor is made; what an application that is over leaves in the buffers changes nothing.
fn costs_three(alloc: Global) -> bool {
    match signature(alloc, PLUS) {
        Some(sig) => {
            let mut buffers = Buffers::new(alloc);
            cost(alloc, &sig, 1000000) == Ok(Some(3))
                && cost_in(&mut buffers, alloc, &sig, 3) == Ok(Some(3))
                && cost_in(&mut buffers, alloc, &sig, 2) == Err(EvalErr::Over)
                && cost_in(&mut buffers, alloc, &sig, 3) == Ok(Some(3))
        }
        None => false,
    }
}

#[test]
fn costs_of_a_sum(rt: HostRuntime) {
    assert!(rt; costs_three(rt.alloc()));
}
