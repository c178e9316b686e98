ghost use Rattle.std.specs.Prelude.{◌≡◌, ◌↔◌, ◌<◌, IfOk, IsTrue, option_map};
ghost use Rattle.law_sig.specs.Chains.{start_side, end_side, AreBinds, Replays};
ghost use Rattle.std.specs.Option.{option_copied};
ghost use Rattle.law_sig.specs.Lists.{numbered};
ghost use Rattle.law_chains.specs.Binds.{stands, is_given, is_covered, fits, is_earlier, rises};
ghost use Rattle.law_chains.specs.Replaying.{IsStepped};
ghost use Rattle.law_replay.specs.Terms.{meaning};
ghost use Rattle.std.specs.List.{list_all};

use super::term::{Term, is_tree, replaced};
use bumpalo::Bump;
use law_sig::{Bind, Dir, Equation, NoMemory, Sig, SortId, Step, Tree};
use std::alloc::Global;

/// The side that a step starts from.
fn start<'a>(step: &Step, q: &'a Equation) -> &'a Tree
    ensures { result.now ≡ start_side step.now.dir q.now }
{
    match step.dir {
        Dir::LeftToRight => &q.left,
        Dir::RightToLeft => &q.right,
    }
}

/// The side that a step leads to.
fn end<'a>(step: &Step, q: &'a Equation) -> &'a Tree
    ensures { result.now ≡ end_side step.now.dir q.now }
{
    match step.dir {
        Dir::LeftToRight => &q.right,
        Dir::RightToLeft => &q.left,
    }
}

/// Whether a variable stands in a term.
fn stands(term: &Tree, sort: SortId, index: u32) -> bool
    ensures { result ≡ stands sort index term.now }
{
    match term {
        Tree::Var(own, number) => own.0 == sort.0 && *number == index,
        Tree::App(_, args) => {
            for arg in args.as_slice() {
                if stands(arg, sort, index) {
                    return true;
                }
            }
            false
        }
    }
}

/// Whether there is a term for a variable.
fn is_given(binds: &[Bind], sort: SortId, index: u32) -> bool
    ensures { result ≡ is_given binds.now sort index }
{
    for bind in binds {
        if bind.sort.0 == sort.0 && bind.index == index {
            return true;
        }
    }
    false
}

/// Whether there is a term for each variable of a term.
fn is_covered(term: &Tree, binds: &[Bind]) -> bool
    ensures { result ≡ is_covered binds.now term.now }
{
    match term {
        Tree::Var(sort, index) => is_given(binds, *sort, *index),
        Tree::App(_, args) => {
            for arg in args.as_slice() {
                if !is_covered(arg, binds) {
                    return false;
                }
            }
            true
        }
    }
}

/// Whether a term has the sort of its variable, which stands in the equation.
fn fits(sig: &Sig, q: &Equation, bind: &Bind) -> bool
    ensures { result ≡ fits sig.now q.now bind.now }
{
    let Some(sort) = sig.sort_of(&bind.term) else {
        return false;
    };
    sort.0 == bind.sort.0
        && (stands(&q.left, bind.sort, bind.index) || stands(&q.right, bind.sort, bind.index))
}

/// Whether all of them do.
fn all_fit(sig: &Sig, q: &Equation, binds: &[Bind]) -> bool
    ensures { result ≡ list_all (fits sig.now q.now) binds.now }
{
    for bind in binds {
        if !fits(sig, q, bind) {
            return false;
        }
    }
    true
}

/// Whether a variable stands before another one, by sort and then index.
fn is_earlier(bind: &Bind, next: &Bind) -> bool
    ensures { result ≡ is_earlier bind.now next.now }
{
    bind.sort.0 < next.sort.0 || bind.sort.0 == next.sort.0 && bind.index < next.index
}

/// Whether each variable stands before the next one.
fn rises(binds: &[Bind]) -> bool
    ensures { result ≡ rises binds.now }
{
    for at in 1..binds.len() {
        if !is_earlier(&binds[at - 1], &binds[at]) {
            return false;
        }
    }
    true
}

/// Whether these are terms for exactly the variables of an equation, in order.
fn are_binds(sig: &Sig, q: &Equation, binds: &[Bind]) -> bool
    ensures { IsTrue result ↔ AreBinds sig.now q.now binds.now }
{
    if !rises(binds) {
        return false;
    }
    if !all_fit(sig, q, binds) {
        return false;
    }
    if !is_covered(&q.left, binds) {
        return false;
    }
    is_covered(&q.right, binds)
}

/// The equation with a number, counted from 1.
fn equation(known: &[Equation], number: u64) -> Option<&Equation>
    ensures { option_copied result ≡ numbered known.now number }
{
    if number == 0 {
        return None;
    }
    known.get((number - 1) as usize)
}

/// The term that a step leads to; `None` exactly where it leads to none.
fn step<'a>(
    alloc: Global,
    arena: &'a Bump<Global>,
    sig: &Sig,
    known: &'a [Equation],
    step: &'a Step,
    term: Term<'a>,
) -> Result<Option<Term<'a>>, NoMemory>
    ensures { IfOk result (λ found. IsStepped sig.now known.now step.now (meaning term.entry) (option_map meaning found)) }
{
    let Some(q) = equation(known, step.number) else {
        return Ok(None);
    };
    let binds = step.binds.as_slice();
    if !are_binds(sig, q, binds) {
        return Ok(None);
    }
    let place = step.place.as_slice();
    let found = replaced(
        alloc,
        arena,
        term,
        place,
        binds,
        start(step, q),
        end(step, q),
    )?;
    Ok(found)
}

/// Whether a chain leads from one term to another by these equations, which are numbered from 1.
pub fn replays(
    alloc: Global,
    sig: &Sig,
    known: &[Equation],
    steps: &[Step],
    from: &Tree,
    to: &Tree,
) -> Result<bool, NoMemory>
    ensures { IfOk result (λ leads. IsTrue leads ↔ Replays sig.now known.now steps.now from.now to.now) }
{
    let arena = Bump::new(alloc);
    let mut current = Term::Whole(from);
    for next in steps {
        let Some(found) = step(alloc, &arena, sig, known, next, current)? else {
            return Ok(false);
        };
        current = found;
    }
    Ok(is_tree(to, current))
}
