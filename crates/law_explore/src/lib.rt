//! The terms of a signature's universe in the order of exploring, and the law list that the tests give.
#![tactic(auto)]

mod background;
mod classes;
mod explore;
mod firsts;
mod laws;
mod list;
mod listed;
mod named;
mod refusal;
mod rows;
mod schemas;

pub use explore::universe;
pub use firsts::first_same;
pub use laws::equations;
pub use listed::{plain, refusal_laws};
pub use refusal::ExploreErr;
