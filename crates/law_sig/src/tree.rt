ghost use Rattle.std.specs.Prelude.{◌≡◌, ◌-◌, ◌^◌, ◌↔◌, min, IsTrue, IfOk};
ghost use Rattle.law_sig.specs.Trees.{node_count};

use super::seq::{NoMemory, Seq};
use std::alloc::Global;

/// A declared sort, by the order of the lines that declare sorts, from 0.
#[derive(Clone, Copy, Debug, PartialEq, Eq, PartialOrd, Ord, Hash)]
pub struct SortId(pub u32);

/// A declared constructor or function. Both share one numbering, in the order of their lines, from 0.
#[derive(Clone, Copy, Debug, PartialEq, Eq, PartialOrd, Ord, Hash)]
pub struct SymId(pub u32);

/// A term: a variable by its sort and its index, or a symbol over arguments.
#[derive(Debug, Drop)]
pub enum Tree {
    Var(SortId, u32),
    App(SymId, Seq<Tree>),
}

/// The right side of a function's rule: a field of the matched constructor, a parameter, or a symbol over
/// arguments, which is made if it is a constructor and called if it is a function.
#[derive(Debug, Drop)]
pub enum Body {
    Field(u32),
    Param(u32),
    Make(SymId, Seq<Body>),
    Call(SymId, Seq<Body>),
}

impl Tree {
    /// A term of its own that equals this one.
    pub fn copy(&self, alloc: Global) -> Result<Tree, NoMemory>
        ensures { IfOk result (λ tree. tree ≡ self.now) }
    {
        match self {
            Tree::Var(sort, index) => Ok(Tree::Var(*sort, *index)),
            Tree::App(head, args) => {
                let mut copies = Seq::new(alloc);
                for arg in args.as_slice() {
                    copies.push(arg.copy(alloc)?)?;
                }
                Ok(Tree::App(*head, copies))
            }
        }
    }

    /// The number of nodes, or 2^64 - 1 where it is that or more.
    pub fn size(&self) -> u64
        ensures { result ≡ min (node_count self.now) (2 ^ 64 - 1) }
    {
        match self {
            Tree::Var(_, _) => 1,
            Tree::App(_, args) => {
                let mut count = 1u64;
                for arg in args.as_slice() {
                    count = count.saturating_add(arg.size());
                }
                count
            }
        }
    }

    /// Whether two terms are the same.
    pub fn is_same(&self, other: &Tree) -> bool
        ensures { IsTrue result ↔ (self.now ≡ other.now) }
    {
        match (self, other) {
            (Tree::Var(sort, index), Tree::Var(other_sort, other_index)) => {
                sort.0 == other_sort.0 && index == other_index
            }
            (Tree::App(head, args), Tree::App(other_head, other_args)) => {
                if head.0 != other_head.0 {
                    return false;
                }
                if args.len() != other_args.len() {
                    return false;
                }
                let others = other_args.as_slice();
                for (at, arg) in args.as_slice().iter().enumerate() {
                    if !arg.is_same(&others[at]) {
                        return false;
                    }
                }
                true
            }
            _ => false,
        }
    }
}
