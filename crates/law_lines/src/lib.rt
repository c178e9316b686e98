//! Signature texts: the pieces of a line and the words among them, raw lines and terms, their grammar and their
//! one spelling, and what is read of them piece by piece; and the laws of these definitions.
#![tactic(auto)]

mod copy;
mod error;
mod laws;
mod raw;
mod shape;
mod sig;
mod stage;
mod token;
mod want;

pub use error::{ReadErr, ReadKind, Stop};
pub use laws::texts_have_one_reading;
pub use raw::{RawHead, RawLine, RawTerm};
pub use shape::Shape;
pub use sig::RawSig;
pub use stage::{Key, Stage, Version};
pub use token::{Span, Token};
pub use want::{Bounds, Ending, Mark, Place, Row, Want};
