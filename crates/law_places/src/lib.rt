//! Which lines and texts have a reading, and the first place of a text that has none: laws.
#![tactic(auto)]

mod laws;

pub use laws::{refused_texts_are_none, spelled_lines_are_read};
