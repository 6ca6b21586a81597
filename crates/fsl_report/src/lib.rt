//! The texts of verdicts and refusals, and the type of refusals: what is said of the bytes of a file. Each text ends
//! with a line feed.
#![tactic(auto)]

mod refusals;
mod refused;
mod verdicts;

pub use refusals::refused_text;
pub use refused::{BadToken, Refused};
pub use verdicts::verdict_text;
