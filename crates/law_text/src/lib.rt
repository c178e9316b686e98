//! The words, spaces and brackets of a line, and the names and numbers that words spell.
#![tactic(auto)]

mod line;
mod split;
mod words;

pub use law_lines::{Span, Token};
pub use line::Line;
pub use words::{index, is_name, is_word_of_letters, number, put_number};
