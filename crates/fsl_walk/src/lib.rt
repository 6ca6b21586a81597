//! The walk: a thread's configurations against the paths of the rules. Where the paths of all procedures are derived,
//! every move of a thread is good.
#![tactic(auto)]

pub mod laws;
