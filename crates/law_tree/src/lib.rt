//! Split trees: items at leaves, told apart by the values that they have at tests, which are asked for only where they matter.
#![tactic(auto)]

mod ask;
mod compare;
mod look;
mod nodes;
mod shape;
mod tree;

pub use ask::Ask;
pub use shape::Shape;
pub use tree::{PlaceErr, Placed, SplitTree};
