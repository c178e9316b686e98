ghost use Rattle.std.specs.Prelude.{◌≡◌, ◌+◌, ◌<◌, ◌≤◌, ℕ, length, drop, Some, slice_get, IfOk, OnOk, ◌⊎◌};
ghost use Rattle.std.specs.List.{list_all};
ghost use Rattle.law_sig.specs.Lists.{In};
ghost use Rattle.law_sig.specs.Signature.{result_of};
ghost use Rattle.law_types.specs.Heights.{AreLow};
ghost use Rattle.law_types.specs.Valued.{AreLeft, AreNoted, AreTakers, IsFound, IsNoted, Looked, gives, is_known};

use crate::heights::{mark, none_low};
use crate::terms::result_of;
use law_sig::{NoMemory, SortId, Sym};
use law_typing::Whole;
use std::alloc::Global;

/// Which sorts are known to have a value, and these in the order in which that was found.
#[derive(Drop)]
struct Found {
    has: Vec<bool>,
    queue: Vec<usize>,
}

/// For each sort whether it has a value at all. Each constructor is looked at once, and once more for each of its
/// arguments whose sort turns out to have a value.
pub(crate) fn valued(alloc: Global, text: &Whole) -> Result<Vec<bool>, NoMemory>
    ensures { IfOk result (λ has. AreLow text.now (length text.now.sorts + 1) has.items) }
{
    let takers = takers(alloc, text)?;
    let mut found = Found {
        has: none_low(alloc, text.sorts.len())?,
        queue: Vec::new(alloc),
    };
    look_at_all(text, &mut found)?;
    for at in 0..usize::MAX {
        let Some(sort) = number_at(found.queue.as_slice(), at) else {
            return Ok(found.has);
        };
        if sort < takers.len() {
            look_at_takers(text, takers[sort].as_slice(), at + 1, &mut found)?;
        }
    }
    Ok(found.has)
}

fn number_at(numbers: &[usize], at: usize) -> Option<usize>
    ensures { result ≡ slice_get numbers.now at }
{
    numbers.get(at).copied()
}

/// Whether a sort is known to have a value: a name that isn't a sort counts as one that has.
fn is_known(has: &[bool], sort: SortId) -> bool
    ensures { result ≡ is_known has.now sort }
{
    if (sort.0 as usize) < has.len() {
        has[sort.0 as usize]
    } else {
        true
    }
}

fn all_known(has: &[bool], sorts: &[SortId]) -> bool
    ensures { result ≡ list_all (is_known has.now) sorts.now }
{
    for sort in sorts {
        if !is_known(has, *sort) {
            return false;
        }
    }
    true
}

/// Whether a symbol is a constructor that gives its sort the first value that is known.
fn gives(has: &[bool], symbol: &Sym) -> bool
    ensures { result ≡ gives has.now symbol.now }
{
    match symbol {
        Sym::Con(con) => all_known(has, con.args.as_slice()) && !is_known(has, con.sort),
        Sym::Fun(_) => false,
    }
}

/// Looks at a symbol.
fn look(symbol: &Sym, found: &mut Found) -> Result<(), NoMemory>
    ensures { OnOk result (Looked (gives found.old.has.items symbol.now) (result_of symbol.now).0
        found.old.has.items found.new.has.items found.old.queue.items found.new.queue.items) }
{
    if gives(found.has.as_slice(), symbol) {
        let sort = result_of(symbol).0;
        mark(&mut found.has, true, sort);
        if found.queue.push(sort as usize).is_err() {
            return Err(NoMemory);
        }
    }
    Ok(())
}

/// Looks at all symbols, in order.
fn look_at_all(text: &Whole, found: &mut Found) -> Result<(), NoMemory>
    requires { IsFound text.now found.old.has.items found.old.queue.items }
    ensures found { OnOk result (IsFound text.now found.new.has.items found.new.queue.items) }
    ensures left { OnOk result (AreLeft text.now found.new.has.items (λ number. ⊥) found.new.queue.items) }
{
    for symbol in text.symbols.as_slice() {
        look(symbol, found)?;
    }
    Ok(())
}

/// Looks at the constructors that take a value of a sort, which stood before this place of the queue.
fn look_at_takers(
    text: &Whole,
    row: &[usize],
    from: usize,
    found: &mut Found,
) -> Result<(), NoMemory>
    requires from { from ≤ length found.old.queue.items }
    requires found { IsFound text.now found.old.has.items found.old.queue.items }
    requires left { AreLeft text.now found.old.has.items (λ number. In number row.now) (drop from found.old.queue.items) }
    ensures found { OnOk result (IsFound text.now found.new.has.items found.new.queue.items) }
    ensures left { OnOk result (AreLeft text.now found.new.has.items (λ number. ⊥) (drop from found.new.queue.items)) }
{
    for number in row {
        if let Some(symbol) = text.symbols.get(*number) {
            look(symbol, found)?;
        }
    }
    Ok(())
}

/// For each sort the numbers of the constructors that take a value of it.
fn takers(alloc: Global, text: &Whole) -> Result<Vec<Vec<usize>>, NoMemory>
    ensures { IfOk result (λ table. AreTakers text.now (length text.now.symbols) table.items) }
{
    let mut table = no_takers(alloc, text.sorts.len())?;
    for (number, symbol) in text.symbols.as_slice().iter().enumerate() {
        if let Sym::Con(con) = symbol {
            note_all(&mut table, con.args.as_slice(), number)?;
        }
    }
    Ok(table)
}

/// So many empty rows.
fn no_takers(alloc: Global, count: u32) -> Result<Vec<Vec<usize>>, NoMemory>
    ensures { IfOk result (λ table. length table.items ≡ count) }
{
    let mut table = Vec::new(alloc);
    for _at in 0..count {
        if table.push(Vec::new(alloc)).is_err() {
            return Err(NoMemory);
        }
    }
    Ok(table)
}

/// Adds a number to the row of each of these sorts.
fn note_all(table: &mut Vec<Vec<usize>>, sorts: &[SortId], number: usize) -> Result<(), NoMemory>
    ensures { OnOk result (AreNoted sorts.now number table.old.items table.new.items) }
{
    for sort in sorts {
        note(table, sort.0 as usize, number)?;
    }
    Ok(())
}

/// Adds a number to the row of a sort, where there is one.
fn note(table: &mut Vec<Vec<usize>>, sort: usize, number: usize) -> Result<(), NoMemory>
    ensures { OnOk result (IsNoted sort number table.old.items table.new.items) }
{
    if sort < table.len() {
        let row = &mut table[sort];
        if row.push(number).is_err() {
            return Err(NoMemory);
        }
    }
    Ok(())
}
