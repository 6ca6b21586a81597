//! The paths of a procedure, followed by the rules one statement after the other, up to the first failure.
#![tactic(auto)]

mod calls;
mod continuation;
mod contract;
mod job;
mod looping;
mod next;
mod par;
mod paths;
mod pending;
mod running;
mod says;
mod sets;
mod statements;
mod supported;

pub use paths::outcome;
pub use supported::is_supported;
