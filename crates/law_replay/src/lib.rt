//! Chains of steps, as a checker replays them, and what it asks of terms: their schemas, their order, and whether one is a
//! most general instance. It knows nothing of how a chain is found.
#![tactic(auto)]

mod replay;
mod term;
mod terms;

pub use replay::replays;
pub use terms::{compare, is_general, schema};
