ghost use Rattle.std.specs.Prelude.{◌≡◌, ◌↔◌, map, IfOk, OnOk, IsTrue, Some};
ghost use Rattle.indexmap.specs.IndexMap.{get};
ghost use Rattle.law_sig.specs.Lists.{AreDistinct};
ghost use Rattle.law_sig.specs.Trees.{joined};
ghost use Rattle.law_sig.specs.Signature.{sort_of};
ghost use Rattle.law_checking.specs.Planted.{IsOfSort, AreNumbers, AreGroups, IsAdded, same_number, group};

use super::lines::push_all;
use indexmap::IndexMap;
use law_replay::schema;
use law_sig::{NoMemory, Seq, Sig, SortId, Tree};
use law_test::TermTable;
use std::alloc::Global;

/// Whether a term is of a sort.
pub fn is_of_sort(sig: &Sig, term: &Tree, sort: SortId) -> bool
    ensures { IsTrue result ↔ IsOfSort sig.now sort term.now }
{
    match sig.sort_of(term) {
        Some(own) => own.0 == sort.0,
        None => false,
    }
}

/// The numbers of the terms of a sort.
pub fn numbers_of(
    alloc: Global,
    sig: &Sig,
    terms: &[Tree],
    sort: SortId,
) -> Result<Seq<u64>, NoMemory>
    ensures { IfOk result (AreNumbers terms.now (IsOfSort sig.now sort)) }
{
    let mut found = Seq::new(alloc);
    for (at, term) in terms.iter().enumerate() {
        if !is_of_sort(sig, term, sort) {
            continue;
        }
        found.push(at as u64 + 1)?;
    }
    Ok(found)
}

/// A table of these terms.
fn table_of(alloc: Global, terms: &[Tree]) -> Result<TermTable, NoMemory>
    ensures { IfOk result (λ table. table ≡ terms.now) }
{
    let mut table = TermTable::new(alloc);
    for term in terms {
        table.push(term.copy(alloc)?)?;
    }
    Ok(table)
}

/// Adds a number to a group.
fn add(
    alloc: Global,
    groups: &mut IndexMap<u64, Seq<u64>>,
    key: u64,
    number: u64,
) -> Result<(), NoMemory>
    ensures { OnOk result (IsAdded (get same_number groups.old) (get same_number groups.new) key number) }
{
    let mut group = match groups.swap_remove(&key) {
        Some(group) => group,
        None => Seq::new(alloc),
    };
    group.push(number)?;
    match groups.insert(key, group) {
        Ok(_) => Ok(()),
        Err(_) => Err(NoMemory),
    }
}

/// For each spread schema, by number, the numbers of its live terms.
pub fn grouped(
    alloc: Global,
    spreads: &[Tree],
    lives: &[Tree],
) -> Result<IndexMap<u64, Seq<u64>>, NoMemory>
    requires { AreDistinct spreads.now }
    ensures { IfOk result (λ groups. AreGroups spreads.now lives.now (get same_number groups)) }
{
    let table = table_of(alloc, spreads)?;
    let mut groups = IndexMap::new(alloc);
    for (at, term) in lives.iter().enumerate() {
        let schema = schema(alloc, term)?;
        let Some(place) = table.find(&schema)? else {
            continue;
        };
        add(alloc, &mut groups, place as u64 + 1, at as u64 + 1)?;
    }
    Ok(groups)
}

/// The numbers of the live terms of these schemas.
pub fn terms_of(
    alloc: Global,
    groups: &IndexMap<u64, Seq<u64>>,
    schemas: &[u64],
) -> Result<Seq<u64>, NoMemory>
    ensures { IfOk result (λ found. found ≡ joined (map (λ k. group (get same_number groups.now k)) schemas.now)) }
{
    let mut found = Seq::new(alloc);
    for number in schemas {
        let Some(own) = groups.get(number) else {
            continue;
        };
        push_all(&mut found, own.as_slice())?;
    }
    Ok(found)
}
