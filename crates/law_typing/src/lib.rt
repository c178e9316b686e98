//! When the lines of a text state a signature, and what is wrong with a line of one that states none: definitions,
//! the values that they speak of, and the laws of these definitions.
#![tactic(auto)]

mod errors;
mod laws;
mod names;
mod scope;
mod seen;
mod whole;

pub use errors::{TypeErr, TypeKind};
pub use laws::faultless_lines_state;
pub use names::Names;
pub use scope::{Scope, Standing};
pub use seen::Seen;
pub use whole::Whole;
