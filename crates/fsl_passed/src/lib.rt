//! What a read-modify-write passes on, and what the thread keeps.
#![tactic(auto)]

pub mod laws;
