ghost use Rattle.std.specs.Prelude.{◌≡◌, ◌↔◌, ◌⊎◌, ◌++◌, ◌∷◌, [], IfOk, IsTrue, List, Some, slice_get, slice_index_or};
ghost use Rattle.law_sig.specs.declared.tree.Tree.{Tree};
ghost use Rattle.law_sig.specs.Schemas.{IsConsidered};
ghost use Rattle.law_agenda.specs.declared.shelves.Spread.{Spread};
ghost use Rattle.law_agenda.specs.Stores.{IsClosed, IsStore, IsFitting, IsItem};
ghost use Rattle.law_agenda.specs.Candidates.{IsCandidate, NextOf};
ghost use Rattle.law_listing.specs.Choices.{Picked};
ghost use Rattle.law_agenda.specs.Shelves.{column, lists_for, schemas_in};

use super::candidates::Candidate;
use super::shelves::Spread;
use super::stores::{Found, Store, next_schema};
use super::universe::Universe;
use law_listing::Pick;
use law_sig::{NoMemory, Seq, Sig, SortId, Tree};
use std::alloc::Global;

#[tactic(auto, using(crate::proofs::Items::schema_at))]
/// Whether the schema at a place is this one.
fn is_at(spreads: &[Spread], at: usize, term: &Tree) -> bool
    ensures { (c : Tree) → slice_get (schemas_in spreads.now) at ≡ Some c → IsTrue result ↔ (term.now ≡ c) }
{
    if at >= spreads.len() {
        return false;
    }
    term.is_same(&spreads[at].schema)
}

#[tactic(auto, using(crate::proofs::Places::present, crate::proofs::Places::missing, crate::proofs::Items::nothing_at))]
/// Whether the schema at a place among those of a sort is this one.
fn is_in(level: &Seq<Seq<Spread>>, sort: SortId, at: usize, term: &Tree) -> bool
    ensures { (c : Tree) → slice_get (schemas_in (slice_index_or level.now sort.0 [])) at ≡ Some c → IsTrue result ↔ (term.now ≡ c) }
{
    match level.get(sort.0 as usize) {
        Some(spreads) => is_at(spreads.as_slice(), at, term),
        None => false,
    }
}

#[tactic(auto, using(crate::proofs::Items::column_get, crate::proofs::Items::column_none))]
/// Whether a pick from a shelf is this schema.
fn is_pick(shelf: &[Seq<Seq<Spread>>], sort: SortId, pick: &Pick, term: &Tree) -> bool
    ensures { (c : Tree) → slice_get (slice_index_or (column shelf.now sort) pick.now.weight []) pick.now.at ≡ Some c → IsTrue result ↔ (term.now ≡ c) }
{
    if pick.weight >= shelf.len() {
        return false;
    }
    is_in(&shelf[pick.weight], sort, pick.at, term)
}

/// Whether these are the schemas that a row picks from a shelf.
fn are_schemas(shelf: &[Seq<Seq<Spread>>], sorts: &[SortId], row: &[Pick], args: &[Tree]) -> bool
    ensures { (cs : List Tree) → Picked (lists_for shelf.now sorts.now) row.now cs → IsTrue result ↔ (args.now ≡ cs) }
{
    let Some((sort, sorts)) = sorts.split_first() else {
        return args.len() == 0;
    };
    let Some((pick, row)) = row.split_first() else {
        return false;
    };
    let Some((arg, args)) = args.split_first() else {
        return false;
    };
    if !is_pick(shelf, *sort, pick, arg) {
        return false;
    }
    are_schemas(shelf, sorts, row, args)
}

/// Whether a candidate is this schema.
pub fn is_candidate(sig: &Sig, store: &Store, candidate: &Candidate, term: &Tree) -> bool
    ensures { (t : Tree) → IsCandidate sig.now store.now.shelf store.now.weight candidate.now t → IsTrue result ↔ (term.now ≡ t) }
{
    match (candidate, term) {
        (Candidate::Var(sort), Tree::Var(own, index)) => sort.0 == own.0 && *index == 0,
        (Candidate::App(sym, walk), Tree::App(head, args)) => {
            if sym.0 >= sig.symbols() {
                return false;
            }
            if sym.0 != head.0 {
                return false;
            }
            are_schemas(
                store.shelf.as_slice(),
                sig.args_of(*sym),
                walk.row(),
                args.as_slice(),
            )
        }
        _ => false,
    }
}

/// A store without spread schemas.
pub fn empty_store(alloc: Global, sig: &Sig) -> Result<Store, NoMemory>
    ensures store { IfOk result (IsStore sig.now []) }
    ensures weight { IfOk result (λ store. store.weight ≡ 1) }
    ensures items { IfOk result (λ store. (e : Spread) → IsItem store e → ⊥) }
{
    let _settings = sig.settings();
    let mut shelf = Seq::new(alloc);
    shelf.push(Seq::new(alloc))?;
    Ok(Store {
        weight: 1,
        level: Seq::new(alloc),
        shelf,
    })
}

/// The schema that comes after this one, which is put into the store.
pub fn close(
    alloc: Global,
    universe: &Universe,
    store: Store,
    last: Candidate,
    spread: Spread,
) -> Result<Found, NoMemory>
    ensures items { IfOk result (λ r. (e : Spread) → IsItem r.store e → IsItem store e ⊎ (e ≡ spread)) }
    ensures next { IfOk result (λ r. (spreads : List Tree) → IsStore universe.now spreads store → IsCandidate universe.now store.shelf store.weight last spread.schema → IsFitting store last
        → IsClosed universe.now spreads spread.schema → IsStore universe.now (spreads ++ spread.schema ∷ []) r.store
        × NextOf universe.now r.store.shelf r.store.weight (IsConsidered universe.now (spreads ++ spread.schema ∷ [])) spread.schema r.next) }
{
    let mut level = store.level;
    level.push(spread)?;
    let more = Store {
        weight: store.weight,
        level,
        shelf: store.shelf,
    };
    next_schema(alloc, universe, more, last)
}
