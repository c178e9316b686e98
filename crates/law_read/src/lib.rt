//! The text of a signature, both ways: the reader of raw lines and terms, which names the first line without a
//! reading and why, and the writer of their one spelling.
#![tactic(auto)]

mod line;
mod part;
mod read;
mod segments;
mod sig_lines;
mod take;
mod term;
mod write;

pub use law_lines::{RawHead, RawLine, RawSig, RawTerm, ReadErr, ReadKind, texts_have_one_reading};
pub use law_places::{refused_texts_are_none, spelled_lines_are_read};
pub use read::{read_sig, read_term};
pub use segments::{read_equation, read_values};
pub use sig_lines::SigLines;
pub use write::{write_arg, write_sig, write_term};
