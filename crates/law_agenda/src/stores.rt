ghost use Rattle.std.specs.Prelude.{◌≡◌, ◌<◌, ◌+◌, ◌-◌, ◌++◌, ◌∷◌, ◌^◌, min, List, [], length, IfOk};
ghost use Rattle.law_sig.specs.declared.tree.Tree.{Tree};
ghost use Rattle.law_sig.specs.Schemas.{IsConsidered};
ghost use Rattle.law_agenda.specs.Candidates.{IsCandidate, FirstOf, NextOf};
ghost use Rattle.law_agenda.specs.Shelves.{sorted_out};
ghost use Rattle.law_listing.specs.Stages.{Onward};
ghost use Rattle.law_agenda.specs.Stores.{IsStore, FirstVar, IsFitting, HasNoOther};

use super::candidates::{Candidate, first_from_symbol, next_of_symbol, vars_at};
use super::shelves::{Spread, sorted_out};
use super::universe::Universe;
use law_sig::{NoMemory, Seq, Sig, SortId};
use std::alloc::Global;

/// The spread schemas so far: those of the weight at hand, and those of each lower weight by sort.
#[derive(Debug, Drop)]
pub struct Store {
    pub weight: u32,
    pub level: Seq<Spread>,
    pub shelf: Seq<Seq<Seq<Spread>>>,
}

/// The next schema, if there is one, and the store that it was found in.
#[derive(Debug, Drop)]
pub struct Found {
    pub store: Store,
    pub next: Option<Candidate>,
}

/// On to the next weight.
fn heavier(alloc: Global, sig: &Sig, store: Store) -> Result<Store, NoMemory>
    ensures weight { IfOk result (λ s. s.weight ≡ min (store.weight + 1) (2 ^ 32 - 1)) }
    ensures level { IfOk result (λ s. s.level ≡ []) }
    ensures shelf { IfOk result (λ s. s.shelf ≡ store.shelf ++ sorted_out sig.now store.level (length sig.now.sort_names) ∷ []) }
    ensures items { IfOk result (HasNoOther store) }
{
    let mut shelf = store.shelf;
    shelf.push(sorted_out(alloc, sig, store.level.as_slice())?)?;
    Ok(Store {
        weight: store.weight.saturating_add(1),
        level: Seq::new(alloc),
        shelf,
    })
}

/// The first application of the weight at hand from a symbol on, or of a greater weight.
fn first_application(
    alloc: Global,
    universe: &Universe,
    store: Store,
    from: u32,
) -> Result<Found, NoMemory>
    ensures items { IfOk result (λ r. HasNoOther store r.store) }
    ensures first { IfOk result (λ r. (spreads : List Tree) → IsStore universe.now spreads store
        → IsStore universe.now spreads r.store × FirstOf universe.now r.store.shelf r.store.weight (Onward universe.now (IsConsidered universe.now spreads) store.weight 1 from) r.next) }
{
    match first_from_symbol(alloc, universe, store.shelf.as_slice(), store.weight, from)? {
        Some(found) => Ok(Found {
            store,
            next: Some(found),
        }),
        None => {
            if store.weight >= universe.size() {
                return Ok(Found { store, next: None });
            }
            let more = heavier(alloc, universe.sig(), store)?;
            first_application(alloc, universe, more, 0)
        }
    }
}

/// The first sort from this number on that has a variable.
fn first_var(sig: &Sig, from: u32) -> Option<SortId>
    ensures { FirstVar sig.now from result }
{
    for number in from..sig.sorts() {
        if vars_at(sig, SortId(number)) == 0 {
            continue;
        }
        return Some(SortId(number));
    }
    None
}

/// The first variable from a sort on, or the first application.
pub fn first_schema(
    alloc: Global,
    universe: &Universe,
    store: Store,
    from: u32,
) -> Result<Found, NoMemory>
    ensures items { IfOk result (λ r. HasNoOther store r.store) }
    ensures first { IfOk result (λ r. (spreads : List Tree) → IsStore universe.now spreads store → store.weight ≡ 1
        → IsStore universe.now spreads r.store × FirstOf universe.now r.store.shelf r.store.weight (Onward universe.now (IsConsidered universe.now spreads) 1 0 from) r.next) }
{
    match first_var(universe.sig(), from) {
        Some(sort) => Ok(Found {
            store,
            next: Some(Candidate::Var(sort)),
        }),
        None => first_application(alloc, universe, store, 0),
    }
}

/// The schema that comes after this one.
pub fn next_schema(
    alloc: Global,
    universe: &Universe,
    store: Store,
    last: Candidate,
) -> Result<Found, NoMemory>
    ensures items { IfOk result (λ r. HasNoOther store r.store) }
    ensures next { IfOk result (λ r. (spreads : List Tree) (t : Tree) → IsStore universe.now spreads store → IsCandidate universe.now store.shelf store.weight last t → IsConsidered universe.now spreads t → IsFitting store last
        → IsStore universe.now spreads r.store × NextOf universe.now r.store.shelf r.store.weight (IsConsidered universe.now spreads) t r.next) }
{
    match last {
        Candidate::Var(sort) => first_schema(alloc, universe, store, sort.0.saturating_add(1)),
        Candidate::App(sym, walk) => match next_of_symbol(alloc, sym, walk)? {
            Some(next) => Ok(Found {
                store,
                next: Some(next),
            }),
            None => first_application(alloc, universe, store, sym.0.saturating_add(1)),
        },
    }
}
