//! The pools that a seed gives: definitions, and lemmas of them.
#![tactic(auto)]
