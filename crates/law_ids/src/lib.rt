//! Ids of shared values: what a list of trees says of an id, and of pools of ids; definitions, and lemmas of them.
#![tactic(auto)]

mod ids;

pub use ids::ValueId;
