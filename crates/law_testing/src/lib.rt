//! The values of terms at the tests of a signature's pools, as ids of shared values: definitions, and lemmas of them.
#![tactic(auto)]
