//! A memo of applications: what `law_eval` gives, with the same cost, without doing again what was done.
#![tactic(auto)]

mod memo;

pub use memo::Memo;
