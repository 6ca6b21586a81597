//! The memory machine on straight programs: one thread, whose reads read the last write of their location.
//! A machine keeps that its state is what its moves so far have made, so that its graph is an execution of
//! the program, consistent and acyclic.
//! `specs/` and `proofs/` have a file of the name of each source, with the word Lemmas in `proofs/`. The others
//! are of no source alone: `States` is what contracts see of a machine, `Serial` and `Lone` are of the events of
//! one thread, `Runs`, `Executions` and `Returned` of its moves.
#![tactic(auto)]

mod history;
mod machine;
mod orders;
mod steps;
#[cfg(test)]
mod tests;
mod turn;

pub use machine::Machine;
pub use steps::{Readiness, Stepped};
