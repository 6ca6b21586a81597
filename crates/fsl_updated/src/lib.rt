//! That read-modify-writes keep what a symbolic state means.
#![tactic(auto)]

pub mod laws;
