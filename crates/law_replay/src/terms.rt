ghost use Rattle.std.specs.Prelude.{◌≡◌, ◌↔◌, ◌<◌, ◌^◌, ◌+◌, ◌-◌, IfOk, IsTrue, IsSome};
ghost use Rattle.law_sig.specs.Trees.{schema_of, holes};
ghost use Rattle.law_sig.specs.Signature.{sort_of};
ghost use Rattle.law_sig.specs.Tests.{weight};
ghost use Rattle.law_sig.specs.Order.{compare_k};
ghost use Rattle.law_sig.specs.General.{IsNumbered};
ghost use Rattle.law_chains.specs.Counting.{counted_from};

use law_sig::{Equation, NoMemory, Seq, Sig, SortId, SymId, Tree};
use std::alloc::Global;
use std::cmp::Ordering;

/// The schema of a term: every variable's index set to 0.
pub fn schema(alloc: Global, term: &Tree) -> Result<Tree, NoMemory>
    ensures { IfOk result (λ schema. schema ≡ schema_of term.now) }
{
    match term {
        Tree::Var(sort, _) => Ok(Tree::Var(*sort, 0)),
        Tree::App(head, args) => {
            let mut made = Seq::new(alloc);
            for arg in args.as_slice() {
                made.push(schema(alloc, arg)?)?;
            }
            Ok(Tree::App(*head, made))
        }
    }
}

/// The order K of two terms.
pub fn compare(sig: &Sig, left: &Tree, right: &Tree) -> Ordering
    requires left { weight sig.now left.now < 2 ^ 64 }
    requires right { weight sig.now right.now < 2 ^ 64 }
    ensures { result ≡ compare_k sig.now left.now right.now }
{
    match sig.weight(left).cmp(&sig.weight(right)) {
        Ordering::Less => return Ordering::Less,
        Ordering::Greater => return Ordering::Greater,
        Ordering::Equal => {}
    }
    match (left, right) {
        (Tree::Var(sort, index), Tree::Var(other_sort, other_index)) => {
            sort.0.cmp(&other_sort.0).then(index.cmp(other_index))
        }
        (Tree::Var(_, _), Tree::App(_, _)) => Ordering::Less,
        (Tree::App(_, _), Tree::Var(_, _)) => Ordering::Greater,
        (Tree::App(head, args), Tree::App(other_head, other_args)) => {
            match head.0.cmp(&other_head.0) {
                Ordering::Less => return Ordering::Less,
                Ordering::Greater => return Ordering::Greater,
                Ordering::Equal => {}
            }
            for (at, arg) in args.as_slice().iter().enumerate() {
                let Some(other) = other_args.get(at) else {
                    return Ordering::Greater;
                };
                match compare(sig, arg, other) {
                    Ordering::Less => return Ordering::Less,
                    Ordering::Greater => return Ordering::Greater,
                    Ordering::Equal => {}
                }
            }
            if args.len() < other_args.len() {
                return Ordering::Less;
            }
            Ordering::Equal
        }
    }
}

/// The index after the last one of a sort's variables, where these count up from this one, from left to right; `None` exactly
/// where they don't.
fn count_up(term: &Tree, sort: SortId, next: u64) -> Option<u64>
    ensures { result ≡ counted_from next (holes sort term.now) }
{
    match term {
        Tree::Var(own, index) => {
            if own.0 != sort.0 {
                return Some(next);
            }
            if *index as u64 != next {
                return None;
            }
            Some(next + 1)
        }
        Tree::App(_, args) => {
            let mut count = next;
            for arg in args.as_slice() {
                let Some(after) = count_up(arg, sort, count) else {
                    return None;
                };
                count = after;
            }
            Some(count)
        }
    }
}

/// Whether the variables of each sort are numbered from 0, from left to right.
pub fn is_general(sig: &Sig, term: &Tree) -> bool
    requires { IsSome (sort_of sig.now term.now) }
    ensures { IsTrue result ↔ IsNumbered term.now }
{
    for at in 0..sig.sorts() {
        if count_up(term, SortId(at), 0).is_none() {
            return false;
        }
    }
    true
}
