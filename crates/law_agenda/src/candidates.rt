ghost use Rattle.std.specs.Prelude.{◌≡◌, ◌<◌, List, ℕ, length, IfOk};
ghost use Rattle.law_sig.specs.Signature.{vars_at, weight_at};
ghost use Rattle.law_sig.specs.Tests.{is_explored};
ghost use Rattle.law_sig.specs.declared.tree.Tree.{Tree};
ghost use Rattle.law_sig.specs.Schemas.{IsConsidered};
ghost use Rattle.law_agenda.specs.declared.candidates.Candidate.TheVariants as candidate;
ghost use Rattle.law_agenda.specs.Candidates.{IsApplication, IsStock, FirstOf, NextOf, FirstFrom};
ghost use Rattle.law_listing.specs.Stages.{Here};
ghost use Rattle.law_sig.specs.declared.parts.SigParts.{SigParts};
ghost use Rattle.law_agenda.specs.Shelves.{Shelf};

use super::shelves::{Spread, choices};
use super::universe::Universe;
use super::walks::Walk;
use law_sig::{NoMemory, Seq, Sig, SortId, SymId};
use std::alloc::Global;

/// A schema that may be the next one: the first variable of a sort, or a symbol over a row of spread schemas.
#[derive(Debug, Drop)]
pub enum Candidate {
    Var(SortId),
    App(SymId, Walk),
}

/// How many variables a sort has.
pub fn vars_at(sig: &Sig, sort: SortId) -> u32
    ensures { result ≡ vars_at sig.now sort }
{
    match sig.settings().vars.get(sort.0 as usize) {
        Some(count) => *count,
        None => 0,
    }
}

/// The first candidate of a symbol.
fn first_of_symbol(
    alloc: Global,
    universe: &Universe,
    shelf: &[Seq<Seq<Spread>>],
    weight: u32,
    sym: SymId,
) -> Result<Option<Candidate>, NoMemory>
    requires { sym.0 < length universe.now.symbols }
    ensures { IfOk result (λ r. (spreads : List Tree) → IsStock universe.now spreads shelf.now weight
        → FirstOf universe.now shelf.now weight (Here universe.now (IsConsidered universe.now spreads) weight 1 sym.0) r) }
{
    let own = universe.weight_at(sym);
    if weight < own {
        return Ok(None);
    }
    if !universe.is_explored(sym) {
        return Ok(None);
    }
    let choices = choices(alloc, shelf, universe.args_of(sym))?;
    match Walk::start(alloc, choices, weight - own)? {
        Some(walk) => Ok(Some(Candidate::App(sym, walk))),
        None => Ok(None),
    }
}

/// The candidate of the same symbol that comes next.
pub fn next_of_symbol(alloc: Global, sym: SymId, walk: Walk) -> Result<Option<Candidate>, NoMemory>
    ensures { IfOk result (λ r. (parts : SigParts) (spreads : List Tree) (shelf : Shelf) (w : ℕ) (t : Tree) → IsStock parts spreads shelf w
        → IsApplication parts shelf w sym walk t → NextOf parts shelf w (Here parts (IsConsidered parts spreads) w 1 sym.0) t r) }
{
    match walk.step(alloc)? {
        Some(next) => Ok(Some(Candidate::App(sym, next))),
        None => Ok(None),
    }
}

/// The first candidate of this weight from a symbol on.
pub fn first_from_symbol(
    alloc: Global,
    universe: &Universe,
    shelf: &[Seq<Seq<Spread>>],
    weight: u32,
    from: u32,
) -> Result<Option<Candidate>, NoMemory>
    ensures { IfOk result (λ r. (spreads : List Tree) → IsStock universe.now spreads shelf.now weight → FirstFrom universe.now spreads shelf.now weight from r) }
{
    for number in from..universe.symbols() {
        match first_of_symbol(alloc, universe, shelf, weight, SymId(number))? {
            Some(found) => return Ok(Some(found)),
            None => continue,
        }
    }
    Ok(None)
}
