//! Signatures of algebraic types and of functions by structural recursion, and the terms over them.
#![tactic(auto)]

mod chain;
mod counts;
mod parts;
mod seq;
mod sig;
mod text;
mod tree;

pub use chain::{Bind, Dir, Step};
pub use parts::{Con, Equation, Fun, PoolRule, Settings, SigParts, Sym};
pub use seq::{NoMemory, Seq};
pub use sig::Sig;
pub use text::Text;
pub use tree::{Body, SortId, SymId, Tree};
