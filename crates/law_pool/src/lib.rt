//! Pools of test values, and the tests that give the variables their values from them.
#![tactic(auto)]

mod given;
mod own;
mod pools;
mod written;

pub use given::given_pools;
pub use own::OwnTests;
pub use pools::Pools;
