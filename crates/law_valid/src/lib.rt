//! What makes a certificate valid, as a definition, and what validity proves, as laws: each function here has an empty
//! body, and its contract is the law.
#![tactic(auto)]

mod certificate;
mod laws;
mod rule;

pub use certificate::{Branch, Class, Entry, SortTree};
pub use laws::{checking_laws, coverage_laws};
pub use rule::{Answer, Rule};
