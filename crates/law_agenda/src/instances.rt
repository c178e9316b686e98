ghost use Rattle.std.specs.Prelude.{◌≡◌, ◌↔◌, ◌++◌, IfOk, OnOk, IsTrue, List, [], ◌<◌, length, slice_get, slice_index_or};
ghost use Rattle.law_sig.specs.declared.tree.Tree.{Tree};
ghost use Rattle.law_agenda.specs.Shelves.{bucket, sorts_of};
ghost use Rattle.law_listing.specs.Choices.{Picked};
ghost use Rattle.law_agenda.specs.Instances.{range_of, ranges_of, range_counts, pieces, IsInstanceOf, IsOpen, IsOpened, IsHeld, FirstInstance, NextInstance};
ghost use Rattle.law_sig.specs.Signature.{symbol_at};
ghost use Rattle.law_sig.specs.declared.parts.SigParts.{SigParts};
ghost use Rattle.law_sig.specs.declared.tree.Tree.TheVariants.{App};

use super::candidates::{Candidate, vars_at};
use super::shelves::Spread;
use super::walks::Walk;
use law_listing::Pick;
use law_sig::{NoMemory, Seq, Sig, SortId, SymId, Tree};
use std::alloc::Global;

/// The live terms numbered from `from` on, up to but without `to`.
#[derive(Clone, Copy, Debug, PartialEq, Eq)]
pub struct Range {
    pub from: usize,
    pub to: usize,
}

/// An instance of a schema: a variable by its index, of so many, or a symbol over live terms of ranges.
#[derive(Debug, Drop)]
pub enum Instance {
    Var(SortId, u32, u32),
    App(SymId, Seq<Range>, Walk),
}

#[tactic(auto, using(crate::proofs::Places::present, crate::proofs::Places::missing))]
/// The range of the spread schema at a place among those of a sort.
fn range_in(level: &Seq<Seq<Spread>>, sort: SortId, at: usize) -> Range
    ensures { result ≡ range_of (slice_get (slice_index_or level.now sort.0 []) at) }
{
    let Some(spreads) = level.get(sort.0 as usize) else {
        return Range { from: 0, to: 0 };
    };
    match spreads.get(at) {
        Some(spread) => Range {
            from: spread.from,
            to: spread.to,
        },
        None => Range { from: 0, to: 0 },
    }
}

#[tactic(auto, using(crate::proofs::Places::present, crate::proofs::Places::missing))]
/// The range of the spread schema that is picked.
fn range_at(shelf: &[Seq<Seq<Spread>>], sort: SortId, pick: &Pick) -> Range
    ensures { result ≡ range_of (slice_get (bucket shelf.now pick.now.weight sort) pick.now.at) }
{
    match shelf.get(pick.weight) {
        Some(level) => range_in(level, sort, pick.at),
        None => Range { from: 0, to: 0 },
    }
}

/// The ranges of what a row picks.
fn push_ranges(
    found: &mut Seq<Range>,
    shelf: &[Seq<Seq<Spread>>],
    sorts: &[SortId],
    row: &[Pick],
) -> Result<(), NoMemory>
    ensures { OnOk result (found.new ≡ found.old ++ ranges_of shelf.now sorts.now row.now) }
{
    let Some((sort, sorts)) = sorts.split_first() else {
        return Ok(());
    };
    let Some((pick, row)) = row.split_first() else {
        return Ok(());
    };
    found.push(range_at(shelf, *sort, pick))?;
    push_ranges(found, shelf, sorts, row)
}

/// How many terms there are in each range.
fn range_counts(alloc: Global, ranges: &[Range]) -> Result<Seq<Seq<usize>>, NoMemory>
    ensures { IfOk result (λ counts. counts ≡ range_counts ranges.now) }
{
    let mut counts = Seq::new(alloc);
    for range in ranges {
        let mut one = Seq::new(alloc);
        one.push(range.to.saturating_sub(range.from))?;
        counts.push(one)?;
    }
    Ok(counts)
}

/// Whether these are the live terms that a row picks.
fn are_picked(lives: &[Tree], ranges: &[Range], row: &[Pick], args: &[Tree]) -> bool
    ensures { (ts : List Tree) → Picked (pieces lives.now ranges.now) row.now ts → IsTrue result ↔ (args.now ≡ ts) }
{
    let Some((range, ranges)) = ranges.split_first() else {
        return args.len() == 0;
    };
    let Some((pick, row)) = row.split_first() else {
        return false;
    };
    let Some((arg, args)) = args.split_first() else {
        return false;
    };
    let Some(at) = range.from.checked_add(pick.at) else {
        return false;
    };
    if at >= lives.len() {
        return false;
    }
    if !arg.is_same(&lives[at]) {
        return false;
    }
    are_picked(lives, ranges, row, args)
}

impl Instance {
    /// Whether it is this term.
    pub fn is_term(&self, lives: &[Tree], term: &Tree) -> bool
        ensures { (t : Tree) → IsInstanceOf lives.now self.now t → IsTrue result ↔ (term.now ≡ t) }
    {
        match (self, term) {
            (Instance::Var(sort, index, _), Tree::Var(own_sort, own_index)) => {
                sort.0 == own_sort.0 && index == own_index
            }
            (Instance::App(sym, ranges, walk), Tree::App(head, args)) => {
                if sym.0 != head.0 {
                    return false;
                }
                are_picked(lives, ranges.as_slice(), walk.row(), args.as_slice())
            }
            _ => false,
        }
    }
}

/// The first instance of a schema.
pub fn first_instance(
    alloc: Global,
    sig: &Sig,
    shelf: &[Seq<Seq<Spread>>],
    schema: &Candidate,
) -> Result<Option<Instance>, NoMemory>
    ensures { IfOk result (λ r. (lives : List Tree) (c : Tree) → IsOpened sig.now lives shelf.now schema.now c → FirstInstance sig.now lives c r) }
{
    match schema {
        Candidate::Var(sort) => Ok(Some(Instance::Var(*sort, 0, vars_at(sig, *sort)))),
        Candidate::App(sym, walk) => first_over(alloc, sig, shelf, *sym, walk.row()),
    }
}

/// The first instance of a symbol over what a row picks.
fn first_over(
    alloc: Global,
    sig: &Sig,
    shelf: &[Seq<Seq<Spread>>],
    sym: SymId,
    row: &[Pick],
) -> Result<Option<Instance>, NoMemory>
    ensures { IfOk result (λ r. (lives : List Tree) (c : Tree) (cs : List Tree) → sym.0 < length sig.now.symbols → c ≡ App sym cs
        → IsOpen sig.now lives sym cs (ranges_of shelf.now (sorts_of (symbol_at sig.now sym)) row.now) → FirstInstance sig.now lives c r) }
{
    if sym.0 >= sig.symbols() {
        return Ok(None);
    }
    let mut ranges = Seq::new(alloc);
    push_ranges(&mut ranges, shelf, sig.args_of(sym), row)?;
    let counts = range_counts(alloc, ranges.as_slice())?;
    match Walk::start(alloc, counts, 0)? {
        Some(walk) => Ok(Some(Instance::App(sym, ranges, walk))),
        None => Ok(None),
    }
}

/// The instance that comes next.
pub fn next_instance(alloc: Global, last: Instance) -> Result<Option<Instance>, NoMemory>
    ensures { IfOk result (λ r. (parts : SigParts) (lives : List Tree) (c : Tree) (t : Tree) → IsHeld parts lives last c → IsInstanceOf lives last t → NextInstance parts lives c t r) }
{
    match last {
        Instance::Var(sort, index, count) => {
            if index >= count {
                return Ok(None);
            }
            if index + 1 == count {
                return Ok(None);
            }
            Ok(Some(Instance::Var(sort, index + 1, count)))
        }
        Instance::App(sym, ranges, walk) => match walk.step(alloc)? {
            Some(next) => Ok(Some(Instance::App(sym, ranges, next))),
            None => Ok(None),
        },
    }
}
