//! The texts of certificates and law lists: their values, the one spelling, and what is read of them line by line and
//! piece by piece; and the laws of these definitions.
#![tactic(auto)]

mod cert;
mod draft;
mod error;
mod laws;
mod line;

pub use cert::{Cert, Entry, LawList, Mark, RawBind, RawStep, RawValues, SortTree, TreeLine};
pub use draft::{Draft, Owed};
pub use error::CertErr;
pub use laws::{
    pieces_are_one_text, readers_stay_stopped, refused_texts_are_none, texts_have_one_reading,
};
pub use line::{CertLine, Key};
