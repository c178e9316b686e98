//! Lines that state a signature show no fault, and state one at most: laws.
#![tactic(auto)]

mod laws;

pub use laws::typing_laws;
