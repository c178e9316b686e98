ghost use Rattle.std.specs.Prelude.{◌≡◌, ◌↔◌, ◌<◌, ◌+◌, [], ◌∷◌, ◌++◌, length, map, take, drop, IfOk, IsTrue, MatchOption, option_map};
ghost use Rattle.law_sig.specs.Trees.{substituted};
ghost use Rattle.law_sig.specs.declared.tree.Tree.TheVariants.{App, Var};
ghost use Rattle.law_sig.specs.Chains.{bound_in};
ghost use Rattle.law_replay.specs.Terms.{meaning, IsVariable, IsOpened, IsFrame, wrapped, IsReached};
ghost use Rattle.law_sig.specs.Lists.{Each};
ghost use Rattle.law_chains.specs.Replaying.{IsReplaced};

use bumpalo::Bump;
use bumpalo::collections::into_bump_slice;
use law_sig::{Bind, NoMemory, SortId, SymId, Tree};
use std::alloc::Global;

/// A term while a chain is replayed: one that is written, a side of an equation with terms for its variables, or a symbol
/// over such terms. So a step makes only what stands on the way down to its place, however large the term is.
#[derive(Clone, Copy)]
pub enum Term<'a> {
    Whole(&'a Tree),
    Under(&'a Tree, &'a [Bind]),
    Over(SymId, &'a [Term<'a>]),
}

/// Terms beside one another.
#[derive(Clone, Copy)]
pub struct Row<'a> {
    pub items: &'a [Term<'a>],
}

/// An application, by its symbol and its arguments.
#[derive(Clone, Copy)]
pub struct Opened<'a> {
    pub head: SymId,
    pub args: &'a [Term<'a>],
}

/// A symbol over terms, and the place of one of them.
#[derive(Clone, Copy)]
struct Frame<'a> {
    head: SymId,
    args: &'a [Term<'a>],
    at: usize,
}

/// What stands at a place of a term, and what stands above it, from the root down.
#[derive(Drop)]
struct Path<'a> {
    frames: Vec<Frame<'a>>,
    term: Term<'a>,
}

/// The term that is given for a variable, where there is one.
fn bound<'a>(binds: &'a [Bind], sort: SortId, index: u32) -> Option<&'a Tree>
    ensures { MatchOption result (bound_in binds.now sort index ≡ Var sort index) (λ term. bound_in binds.now sort index ≡ term.now) }
{
    for bind in binds {
        if bind.sort.0 == sort.0 && bind.index == index {
            return Some(&bind.term);
        }
    }
    None
}

/// Whether a term is a side of an equation with these terms for its variables.
fn is_instance(side: &Tree, binds: &[Bind], term: &Tree) -> bool
    ensures { IsTrue result ↔ (term.now ≡ substituted (bound_in binds.now) side.now) }
{
    match side {
        Tree::Var(sort, index) => match bound(binds, *sort, *index) {
            Some(found) => term.is_same(found),
            None => term.is_same(side),
        },
        Tree::App(head, args) => {
            let Tree::App(other_head, other_args) = term else {
                return false;
            };
            if head.0 != other_head.0 {
                return false;
            }
            if args.len() != other_args.len() {
                return false;
            }
            let others = other_args.as_slice();
            for (at, arg) in args.as_slice().iter().enumerate() {
                if !is_instance(arg, binds, &others[at]) {
                    return false;
                }
            }
            true
        }
    }
}

/// Written terms.
fn wholes<'a>(arena: &'a Bump<Global>, trees: &'a [Tree]) -> Result<Row<'a>, NoMemory>
    ensures { IfOk result (λ row. map meaning row.items.now ≡ trees.now) }
{
    let mut items: Vec<Term<'a>, &'a Bump<Global>> = Vec::new(arena);
    for tree in trees {
        let Ok(()) = items.push(Term::Whole(tree)) else {
            return Err(NoMemory);
        };
    }
    Ok(Row {
        items: into_bump_slice(items),
    })
}

/// Parts of a side, with the same terms for its variables.
fn unders<'a>(
    arena: &'a Bump<Global>,
    sides: &'a [Tree],
    binds: &'a [Bind],
) -> Result<Row<'a>, NoMemory>
    ensures { IfOk result (λ row. map meaning row.items.now ≡ map (substituted (bound_in binds.now)) sides.now) }
{
    let mut items: Vec<Term<'a>, &'a Bump<Global>> = Vec::new(arena);
    for side in sides {
        let Ok(()) = items.push(Term::Under(side, binds)) else {
            return Err(NoMemory);
        };
    }
    Ok(Row {
        items: into_bump_slice(items),
    })
}

/// These terms, but for the one at a place, for which there is a new one.
fn with_term<'a>(
    arena: &'a Bump<Global>,
    terms: &[Term<'a>],
    at: usize,
    new: Term<'a>,
) -> Result<Row<'a>, NoMemory>
    requires { at < length terms.now }
    ensures { IfOk result (λ row. row.items.now ≡ (take at terms.now ++ new.entry ∷ []) ++ drop (at + 1) terms.now) }
{
    let mut items: Vec<Term<'a>, &'a Bump<Global>> = Vec::new(arena);
    let Ok(()) = items.extend_from_slice(&terms[..at]) else {
        return Err(NoMemory);
    };
    let Ok(()) = items.push(new) else {
        return Err(NoMemory);
    };
    let Ok(()) = items.extend_from_slice(&terms[at + 1..]) else {
        return Err(NoMemory);
    };
    Ok(Row {
        items: into_bump_slice(items),
    })
}

/// Whether a variable with these terms is a side with those terms.
fn stands_for(variable: &Tree, binds: &[Bind], other: &Tree, others: &[Bind]) -> bool
    requires { IsVariable variable.now }
    ensures { IsTrue result ↔ (substituted (bound_in binds.now) variable.now ≡ substituted (bound_in others.now) other.now) }
{
    match variable {
        Tree::Var(sort, index) => match bound(binds, *sort, *index) {
            Some(found) => is_instance(other, others, found),
            None => is_instance(other, others, variable),
        },
        Tree::App(_, _) => unreachable!(),
    }
}

/// Whether two sides are the same term, each with its terms for its variables.
fn are_same(side: &Tree, binds: &[Bind], other: &Tree, others: &[Bind]) -> bool
    ensures { IsTrue result ↔ (substituted (bound_in binds.now) side.now ≡ substituted (bound_in others.now) other.now) }
{
    let Tree::App(head, args) = side else {
        return stands_for(side, binds, other, others);
    };
    let Tree::App(other_head, other_args) = other else {
        return stands_for(other, others, side, binds);
    };
    if head.0 != other_head.0 {
        return false;
    }
    if args.len() != other_args.len() {
        return false;
    }
    let parts = other_args.as_slice();
    for (at, arg) in args.as_slice().iter().enumerate() {
        if !are_same(arg, binds, &parts[at], others) {
            return false;
        }
    }
    true
}

/// Whether a term is this written one.
pub fn is_tree(tree: &Tree, term: Term<'_>) -> bool
    ensures { IsTrue result ↔ (meaning term.entry ≡ tree.now) }
{
    match term {
        Term::Whole(own) => own.is_same(tree),
        Term::Under(side, binds) => is_instance(side, binds, tree),
        Term::Over(head, args) => {
            let Tree::App(other_head, other_args) = tree else {
                return false;
            };
            if head.0 != other_head.0 {
                return false;
            }
            if args.len() != other_args.len() {
                return false;
            }
            for (at, part) in other_args.as_slice().iter().enumerate() {
                if !is_tree(part, args[at]) {
                    return false;
                }
            }
            true
        }
    }
}

/// Whether a term is a side with these terms for its variables.
fn matches(side: &Tree, binds: &[Bind], term: Term<'_>) -> bool
    ensures { IsTrue result ↔ (meaning term.entry ≡ substituted (bound_in binds.now) side.now) }
{
    let Tree::App(head, args) = side else {
        return is_bound_to(side, binds, term);
    };
    match term {
        Term::Whole(own) => is_instance(side, binds, own),
        Term::Under(other, others) => are_same(other, others, side, binds),
        Term::Over(other_head, parts) => {
            if head.0 != other_head.0 {
                return false;
            }
            if args.len() != parts.len() {
                return false;
            }
            for (at, arg) in args.as_slice().iter().enumerate() {
                if !matches(arg, binds, parts[at]) {
                    return false;
                }
            }
            true
        }
    }
}

/// Whether a term is what a variable stands for.
fn is_bound_to(variable: &Tree, binds: &[Bind], term: Term<'_>) -> bool
    requires { IsVariable variable.now }
    ensures { IsTrue result ↔ (meaning term.entry ≡ substituted (bound_in binds.now) variable.now) }
{
    match variable {
        Tree::Var(sort, index) => match bound(binds, *sort, *index) {
            Some(found) => is_tree(found, term),
            None => is_tree(variable, term),
        },
        Tree::App(_, _) => unreachable!(),
    }
}

/// The symbol and the arguments of a written term; `None` exactly where it is a variable.
fn open_whole<'a>(arena: &'a Bump<Global>, tree: &'a Tree) -> Result<Option<Opened<'a>>, NoMemory>
    ensures { IfOk result (IsOpened tree.now) }
{
    match tree {
        Tree::Var(_, _) => Ok(None),
        Tree::App(head, args) => {
            let row = wholes(arena, args.as_slice())?;
            Ok(Some(Opened {
                head: *head,
                args: row.items,
            }))
        }
    }
}

/// The same of a side with terms for its variables.
fn open_under<'a>(
    arena: &'a Bump<Global>,
    side: &'a Tree,
    binds: &'a [Bind],
) -> Result<Option<Opened<'a>>, NoMemory>
    ensures { IfOk result (IsOpened (substituted (bound_in binds.now) side.now)) }
{
    match side {
        Tree::Var(sort, index) => match bound(binds, *sort, *index) {
            Some(found) => {
                let opened = open_whole(arena, found)?;
                Ok(opened)
            }
            None => Ok(None),
        },
        Tree::App(head, args) => {
            let row = unders(arena, args.as_slice(), binds)?;
            Ok(Some(Opened {
                head: *head,
                args: row.items,
            }))
        }
    }
}

/// The same of any term.
fn open<'a>(arena: &'a Bump<Global>, term: Term<'a>) -> Result<Option<Opened<'a>>, NoMemory>
    ensures { IfOk result (IsOpened (meaning term.entry)) }
{
    match term {
        Term::Whole(tree) => {
            let found = open_whole(arena, tree)?;
            Ok(found)
        }
        Term::Under(side, binds) => {
            let found = open_under(arena, side, binds)?;
            Ok(found)
        }
        Term::Over(head, args) => Ok(Some(Opened { head, args })),
    }
}

/// What stands at a place of a term, with what stands above it; `None` exactly where the term has no such place. It takes the
/// machine's stack for no depth of the place.
fn descend<'a>(
    alloc: Global,
    arena: &'a Bump<Global>,
    term: Term<'a>,
    place: &[u32],
) -> Result<Option<Path<'a>>, NoMemory>
    ensures { IfOk result (IsReached (meaning term.entry) place.now) }
{
    let mut frames = Vec::new(alloc);
    let mut here = term;
    for number in place {
        let Some(opened) = open(arena, here)? else {
            return Ok(None);
        };
        let at = *number as usize;
        if at >= opened.args.len() {
            return Ok(None);
        }
        let Ok(()) = frames.push(Frame {
            head: opened.head,
            args: opened.args,
            at,
        }) else {
            return Err(NoMemory);
        };
        here = opened.args[at];
    }
    Ok(Some(Path { frames, term: here }))
}

/// A term with what stands above it.
fn ascend<'a>(
    arena: &'a Bump<Global>,
    frames: &[Frame<'a>],
    term: Term<'a>,
) -> Result<Term<'a>, NoMemory>
    requires { Each IsFrame frames.now }
    ensures { IfOk result (λ made. meaning made ≡ wrapped frames.now (meaning term.entry)) }
{
    let mut made = term;
    for done in 0..frames.len() {
        let frame = frames[frames.len() - 1 - done];
        let row = with_term(arena, frame.args, frame.at, made)?;
        made = Term::Over(frame.head, row.items);
    }
    Ok(made)
}

/// The term with one side of an equation replaced by the other at a place; `None` exactly where the first side's instance
/// doesn't stand there.
pub fn replaced<'a>(
    alloc: Global,
    arena: &'a Bump<Global>,
    term: Term<'a>,
    place: &[u32],
    binds: &'a [Bind],
    from: &Tree,
    to: &'a Tree,
) -> Result<Option<Term<'a>>, NoMemory>
    ensures { IfOk result (λ found. IsReplaced (substituted (bound_in binds.now) from.now) (substituted (bound_in binds.now) to.now) place.now (meaning term.entry) (option_map meaning found)) }
{
    let Some(path) = descend(alloc, arena, term, place)? else {
        return Ok(None);
    };
    if !matches(from, binds, path.term) {
        return Ok(None);
    }
    let made = ascend(arena, path.frames.as_slice(), Term::Under(to, binds))?;
    Ok(Some(made))
}
