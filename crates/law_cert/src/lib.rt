//! The texts of certificates and law lists, both ways: the writer of their one spelling, and the reader of a
//! certificate, whole or in pieces.
#![tactic(auto)]

mod draft;
mod line;
mod part;
mod phase;
mod reader;
mod write;

pub use law_cert_text::{
    Cert, CertErr, Entry, LawList, Mark, RawBind, RawStep, RawValues, SortTree, TreeLine,
    pieces_are_one_text, readers_stay_stopped, refused_texts_are_none, texts_have_one_reading,
};
pub use law_sig::Dir;
pub use reader::{CertReader, read_cert};
pub use write::{write_cert, write_law, write_list};
