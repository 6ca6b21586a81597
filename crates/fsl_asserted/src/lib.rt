//! What an assertion asks for, and that its rules keep to it: produced it fits a heap with this, consumed it gives this
//! away. What it asks for stays where nothing changes that it has a part of, and is the same at another rung.
#![tactic(auto)]

pub mod laws;
