//! Terms that are kept once each, in a bank over an arena, and what the search does with them.
#![tactic(auto)]

mod at;
mod bank;
mod change;
mod equation;
mod general;
mod listing;
mod matching;
mod measure;
mod order;
mod pos;
mod replace;
mod subst;
mod table;
mod vars;
mod walk;
mod written;

pub use bank::TermBank;
pub use equation::{EqId, Eqn};
pub use law_bank::{Head, Node, Term};
pub use law_sig::Dir;
pub use matching::matches;
pub use measure::{size, weight};
pub use order::{compare, compare_k, kbo};
pub use pos::Pos;
pub use replace::term_at;
pub use subst::Subst;
