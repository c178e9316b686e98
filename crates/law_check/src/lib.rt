//! The checker of certificates: it goes through one in the order of checking, and says whether it is valid. It knows nothing
//! of how a certificate is made.
#![tactic(auto)]

mod check;
mod counts;
mod entries;
mod judge;
mod names;
mod pools;
mod rules;
mod values;

pub use check::verify;
pub use law_checking::{CheckErr, Counts, Verdict};
pub use law_valid::Rule;
