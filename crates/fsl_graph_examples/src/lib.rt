//! Execution graphs written out: one of every kind of event that is an execution, and for each thing that is asked
//! of an execution a graph that nothing else refuses.
#![tactic(auto)]

pub mod laws;
