//! Generated programs, of any size up to 3006 procedures, to measure how a machine judges them.
#![tactic(auto)]

mod generated;
#[cfg(test)]
mod tests;

pub use generated::many;
