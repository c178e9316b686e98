//! What a certificate has to state next: the next schema, and the next instance of a spread one, found from what is spread and
//! live, without a list of all of them.
#![tactic(auto)]

mod agenda;
mod candidates;
mod closing;
mod instances;
mod rows;
mod shelves;
mod stores;
mod universe;
mod walks;

pub use agenda::Agenda;
pub use universe::Universe;
