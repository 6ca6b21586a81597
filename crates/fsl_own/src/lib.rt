//! Who owns what while an execution is gone through event by event, and which events an owner knows of.
#![tactic(auto)]

pub mod laws;
