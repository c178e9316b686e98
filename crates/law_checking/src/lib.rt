//! How a certificate is checked part by part, as definitions, and that the parts make up the whole, as laws: each function
//! here has an empty body, and its contract is the law.
#![tactic(auto)]

mod laws;
mod part;
mod verdict;

pub use laws::tree_laws;
pub use part::Part;
pub use verdict::{CheckErr, Counts, Verdict};
