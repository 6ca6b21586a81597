//! Execution graphs: what the threads of a program did, what each read read, and the order of the writes
//! of each location. `specs/` has the relations between events of C11, and what it is to be an execution
//! of a program, consistent, acyclic and safe.
#![tactic(auto)]

mod ending;
mod event;
mod graph;
pub mod laws;

pub use ending::{End, LimitKind};
pub use event::Event;
pub use graph::{Graph, Order, Thread};
