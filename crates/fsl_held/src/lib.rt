//! What a thread has, as the rules speak of it: its pieces read as a heap, taken apart and put together, and what it is
//! that they satisfy an assertion.
#![tactic(auto)]

pub mod laws;
