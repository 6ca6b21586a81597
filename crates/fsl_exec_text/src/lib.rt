//! The text of an execution: its end, threads, events and modification orders, line by line. The definition
//! stands in one file, `specs/Texts.antt`, in the order of the lines.
#![tactic(auto)]

mod events;
mod numbers;
#[cfg(test)]
mod tests;
mod text;
mod words;

pub use text::write;
