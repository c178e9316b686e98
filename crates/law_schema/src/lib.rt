//! What a search takes next: the next considered schema over what it has spread, and the next instance of the schema spread last over the
//! terms that it holds live. Neither is found by a list of all of them.
#![tactic(auto)]

mod block;
mod places;
mod rules;
mod schemas;
mod stock;
mod walk;

pub use schemas::{Schemas, Turn};
