//! What every crate stands on: lists, boxes and texts that contracts see as plain values, places in a
//! file, and the outside of the program (a shelf of files, a sink, a gate).
#![tactic(auto)]

mod boxed;
mod clone;
mod file_shelf;
mod list;
mod mem_shelf;
mod mem_sink;
mod open_gate;
mod out_sink;
mod outside;
mod reading;
mod span;
#[cfg(test)]
mod tests;
mod text;

pub use boxed::Boxed;
pub use clone::{Same, TryClone};
pub use file_shelf::FileShelf;
pub use list::List;
pub use mem_shelf::{MemShelf, Named};
pub use mem_sink::{Cut, MemSink};
pub use open_gate::OpenGate;
pub use out_sink::OutSink;
pub use outside::{Failed, Gate, Shelf, Sink, Spot, Taken};
pub use reading::{ReadAll, read_all};
pub use span::Span;
pub use text::Text;
