//! Certificates by their names: what one states over a signature, when it is valid, and that its laws then cover. Each
//! function here has an empty body, and its contract is the law.
#![tactic(auto)]

mod laws;

pub use laws::certificate_laws;
