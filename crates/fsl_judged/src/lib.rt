//! The verdicts of the rules on small programs, by computing. The programs and the words that write them out
//! stand in `specs/`; no crate of the program stands on this one.
#![tactic(auto)]

pub mod laws;
