//! What is known at a place of a path: equations and bounds that were assumed, and what they prove.
#![tactic(auto)]

mod bound;
mod difference;
mod equated;
mod fault;
mod kept;
mod known;
mod next;
mod nodes;
mod pure;
mod reduced;
mod sharing;
mod sums;
mod table;

pub use fault::PureFault;
pub use pure::Pure;
pub use sharing::{Shared, push, share_each};
pub use sums::gap_between;
