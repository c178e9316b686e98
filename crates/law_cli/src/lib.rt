//! The top call: all that the program does.
#![tactic(auto)]

mod answer;
mod check;
mod command;
mod input;
mod laws;
mod pieces;
mod plain;
mod status;
mod top;

pub use laws::answer_laws;
pub use status::{FormKind, Status, Which, code, status_line};
pub use top::run;
