//! Histories of the memory machine: what the steps of threads have done, with the views that they left. A history
//! of allowed steps gives a graph that is consistent and acyclic, whose positions the views bound.
#![tactic(auto)]

mod did;
pub mod laws;

pub use did::Did;
