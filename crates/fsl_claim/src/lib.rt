//! Claims on numbered units of work: several workers draw each number once from an atomic word, and
//! keep the least number reported so far in another. No call waits for another worker.
#![tactic(auto)]

mod calls;
mod claims;
mod steps;
#[cfg(test)]
mod tests;
mod view;

pub use claims::{Claiming, Claims, Pass};
pub use view::View;
