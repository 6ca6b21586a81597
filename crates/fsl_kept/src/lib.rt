//! That the rules keep what a symbolic state means: cells, banks, fences, calls, loops.
#![tactic(auto)]

pub mod laws;
