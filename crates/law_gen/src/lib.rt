//! Pools of test values that the words of a random generator choose.
#![tactic(auto)]

mod choices;
mod draw;
mod error;
mod make;

pub use error::GenErr;
pub use make::make_pools;
