//! Values of declared sorts, each kept once: a bank holds every value that was made in it under a number of its own.
#![tactic(auto)]

mod bank;

pub use bank::ValueBank;
pub use law_ids::ValueId;
