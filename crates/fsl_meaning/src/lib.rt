//! What a symbolic state means in an execution, and that what it consists of keeps this: terms, facts, decisions,
//! chunks that are found, put back and joined.
#![tactic(auto)]

pub mod laws;
