//! The messages of a run, and the candidates of reads and writes. Each location's messages are kept by
//! the ends of their intervals, so a look at a location goes over its own messages alone.
#![tactic(auto)]

mod candidates;
mod memory;
mod message;
mod order;
mod orders;
mod slots;

pub use memory::Memory;
pub use message::{Message, PutAt};
pub use slots::{Gap, Slot, Source};

#[cfg(test)]
mod tests;
