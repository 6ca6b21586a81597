//! Units of work on several workers: each worker draws units until none is left, and the answer is
//! that of the least unit that fails, for every number of workers. No worker waits for another.
#![tactic(auto)]

mod check;
mod failure;
#[cfg(test)]
mod tests;
mod work;
mod worker;

pub use check::check_all;
pub use work::Work;
