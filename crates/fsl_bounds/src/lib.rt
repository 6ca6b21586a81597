//! Bounds on differences of symbols: which follow from those that were added, and whether they hold together.
#![tactic(auto)]

mod added;
mod bounds;
pub mod laws;
mod mark;
mod row;
mod rows;

pub use added::Added;
pub use bounds::Bounds;
