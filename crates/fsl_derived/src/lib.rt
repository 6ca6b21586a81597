//! What the rules derive is safe: a program whose procedures are all derived is good, thread by thread, and so safe in
//! every consistent acyclic execution.
#![tactic(auto)]

pub mod laws;
