//! Runs of programs: the machine makes moves until the run ends. What comes of it is an execution of the
//! program, consistent and acyclic, with an end that has its cause in it.
//! The two laws are proved in `proofs/Standing.antt`, from `Quiet`, and in `proofs/Causes.antt`.
#![tactic(auto)]

pub mod laws;
mod running;

pub use running::{Ran, RunWords, run};
