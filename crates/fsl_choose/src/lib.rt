//! Which of the candidates of a read or a write is taken: a number below how many there are, by a
//! chooser whose present state determines it. `specs/Picks.antt` says for all choosers what they pick.
#![tactic(auto)]

mod choose;
mod listed;
mod newest;
mod seeded;

pub use choose::Choose;
pub use listed::Listed;
pub use newest::Newest;
pub use seeded::Seeded;

#[cfg(test)]
mod tests;
