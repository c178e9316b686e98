ghost use Rattle.std.specs.Prelude.{◌≡◌, ◌+◌, length, false, replicate, IfOk};
ghost use Rattle.std.specs.List.{list_all};
ghost use Rattle.law_typing.specs.Declarations.{is_low, has_value};
ghost use Rattle.law_types.specs.Heights.{AreLow, marked};

use law_sig::{NoMemory, SortId, Sym};
use law_typing::Whole;
use std::alloc::Global;

/// So many times false.
pub(crate) fn none_low(alloc: Global, count: u32) -> Result<Vec<bool>, NoMemory>
    ensures { IfOk result (λ lows. lows.items ≡ replicate count false) }
{
    let mut lows = Vec::new(alloc);
    for _at in 0..count {
        if lows.push(false).is_err() {
            return Err(NoMemory);
        }
    }
    Ok(lows)
}

/// Whether a sort has a value of at most this height, by the table for it: a name that isn't a sort counts as of height 1.
#[tactic(auto, using(crate::proofs::HeightFacts::height_facts))]
pub(crate) fn has_low(text: &Whole, height: u64, lows: &[bool], sort: SortId) -> bool
    requires { AreLow text.now height lows.now }
    ensures { result ≡ is_low text.now height sort }
{
    if sort.0 < text.sorts.len() {
        lows[sort.0 as usize]
    } else {
        height > 0
    }
}

/// Whether a sort has a value at all, by the table for one more than the number of sorts.
pub(crate) fn has_value(text: &Whole, has: &[bool], sort: SortId) -> bool
    requires { AreLow text.now (length text.now.sorts + 1) has.now }
    ensures { result ≡ has_value text.now sort }
{
    has_low(text, text.sorts.len() as u64 + 1, has, sort)
}

fn all_low(text: &Whole, height: u64, lows: &[bool], sorts: &[SortId]) -> bool
    requires { AreLow text.now height lows.now }
    ensures { result ≡ list_all (is_low text.now height) sorts.now }
{
    for sort in sorts {
        if !has_low(text, height, lows, *sort) {
            return false;
        }
    }
    true
}

/// Marks a place, where there is something to mark.
pub(crate) fn mark(lows: &mut Vec<bool>, low: bool, place: u32)
    ensures { lows.new.items ≡ marked low place lows.old.items }
{
    if low && (place as usize) < lows.len() {
        lows[place as usize] = true;
    }
}

/// The table for the next height.
#[tactic(auto, using(crate::proofs::HeightFacts::height_facts))]
fn next_low(alloc: Global, text: &Whole, height: u64, lows: &[bool]) -> Result<Vec<bool>, NoMemory>
    requires { AreLow text.now height lows.now }
    ensures { IfOk result (λ next. AreLow text.now (height + 1) next.items) }
{
    let mut next = none_low(alloc, text.sorts.len())?;
    for symbol in text.symbols.as_slice() {
        if let Sym::Con(con) = symbol {
            let low = all_low(text, height, lows, con.args.as_slice());
            mark(&mut next, low, con.sort.0);
        }
    }
    Ok(next)
}

/// The table for a height, round by round.
#[tactic(auto, using(crate::proofs::HeightFacts::height_facts))]
pub(crate) fn lows_at(alloc: Global, text: &Whole, height: u64) -> Result<Vec<bool>, NoMemory>
    ensures { IfOk result (λ lows. AreLow text.now height lows.items) }
{
    let mut lows = none_low(alloc, text.sorts.len())?;
    for at in 0..height {
        lows = next_low(alloc, text, at, lows.as_slice())?;
    }
    Ok(lows)
}
