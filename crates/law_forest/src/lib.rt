//! The trees of a certificate, judged by their lines: what is asked of them apart from values, and then split by split.
#![tactic(auto)]

mod forest;
mod groups;
mod lines;
mod once;
mod splits;
mod trees;
mod values;

pub use forest::judge_trees;
pub use values::{is_yes, value};
