//! The names of a text to the numbers of a signature, and back.
#![tactic(auto)]

mod bodies;
mod cases;
mod check;
mod heights;
mod lines;
mod naming;
mod seen;
mod stated;
mod tail;
mod terms;
mod typing;
mod valued;
mod whole;

pub use check::check_sig;
pub use law_faultless::typing_laws;
pub use law_typing::{TypeErr, TypeKind};
pub use naming::{name_of_sort, name_of_symbol, raw_term};
pub use typing::typed;
