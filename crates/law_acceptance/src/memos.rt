//! Applications through a memo of one entry give what they give without a memo, at the same cost.
ghost use Rattle.law_memo.specs.Right.{AreRight};

use crate::samples::PLUS;
use crate::types::signature;
use law_eval::EvalErr;
use law_memo::Memo;
use law_sig::{Sig, SymId};
use law_value::ValueBank;
use std::alloc::Global;

const ZERO: SymId = SymId(0);

const NEXT: SymId = SymId(1);

const SUM: SymId = SymId(2);

/// What the sum of one and zero costs within a budget, where it is one.
fn one_and_zero(
    sig: &Sig,
    bank: &mut ValueBank,
    memo: &mut Memo,
    budget: u64,
) -> Result<Option<u64>, EvalErr>
    requires { AreRight sig.now bank.old memo.old.entries }
    ensures { AreRight sig.now bank.new memo.new.entries }
{
    memo.laws();
    let zero = bank.make(ZERO, &[])?;
    let one = bank.make(NEXT, &[zero])?;
    let (sum, cost) = memo.apply(sig, bank, SUM, &[one, zero], budget)?;
    if ValueBank::same(sum, one) {
        Ok(Some(cost))
    } else {
        Ok(None)
    }
}

/// What the sum of zero and zero costs, where it is zero.
fn two_zeros(sig: &Sig, bank: &mut ValueBank, memo: &mut Memo) -> Result<Option<u64>, EvalErr>
    requires { AreRight sig.now bank.old memo.old.entries }
    ensures { AreRight sig.now bank.new memo.new.entries }
{
    memo.laws();
    let zero = bank.make(ZERO, &[])?;
    let (sum, cost) = memo.apply(sig, bank, SUM, &[zero, zero], 3)?;
    if ValueBank::same(sum, zero) {
        Ok(Some(cost))
    } else {
        Ok(None)
    }
}

/// Whether the sum costs three when it is made and when it is found, is over within two steps both times, and costs three again
/// once another one took its place.
fn costs_three(alloc: Global, sig: &Sig) -> Result<bool, EvalErr> {
    let mut bank = ValueBank::new(alloc);
    let mut memo = Memo::new(alloc, 1)?;
    let made_over = one_and_zero(sig, &mut bank, &mut memo, 2);
    let made = one_and_zero(sig, &mut bank, &mut memo, 3);
    let found = one_and_zero(sig, &mut bank, &mut memo, 3);
    let found_over = one_and_zero(sig, &mut bank, &mut memo, 2);
    let other = two_zeros(sig, &mut bank, &mut memo)?;
    let again = one_and_zero(sig, &mut bank, &mut memo, 3)?;
    Ok(
        made_over == Err(EvalErr::Over)
            && made == Ok(Some(3))
            && found == Ok(Some(3))
            && found_over == Err(EvalErr::Over)
            && other == Some(1)
            && again == Some(3),
    )
}

fn sums_cost_three(alloc: Global) -> bool {
    match signature(alloc, PLUS) {
        Some(sig) => costs_three(alloc, &sig) == Ok(true),
        None => false,
    }
}

#[test]
fn costs_through_a_memo_of_one_entry(rt: HostRuntime) {
    assert!(rt; sums_cost_three(rt.alloc()));
}
