//! What applying a symbol to values gives, and exactly what it costs, within a budget.
#![tactic(auto)]

mod application;
mod choose;
mod error;
mod steps;
mod work;

pub use application::{Buffers, apply, apply_with};
pub use error::EvalErr;
