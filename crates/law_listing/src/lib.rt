//! Enumeration in the order of exploring, once: which rows there are over choices by place and weight, in which order, and that
//! they are the considered schemas over what is spread, and the instances over what is live. The universe is the case where all is
//! spread and all is live. Each function here has an empty body, and its contract is the law.
#![tactic(auto)]

mod laws;
mod pick;

pub use laws::{Property, expected_laws, later_laws, listing_laws, row_laws};
pub use pick::Pick;
