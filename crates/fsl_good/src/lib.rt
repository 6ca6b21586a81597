//! Good threads: a proof system over whole numbers, for so many moves, and that what a good thread does keeps the
//! ground that all stand on.
#![tactic(auto)]

pub mod laws;
