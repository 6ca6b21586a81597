//! Views: up to where the messages of each location are seen. A view keeps an entry for each location
//! that it was raised at, and contracts see it as a function that is 0 everywhere else (`specs/Seen.antt`).
#![tactic(auto)]

mod entries;
mod entry;
mod view;

pub use entry::Entry;
pub use view::View;

#[cfg(test)]
mod tests;
