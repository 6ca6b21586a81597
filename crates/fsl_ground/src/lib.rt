//! The ground that all threads of an execution stand on: what each message holds, which values are known, and that
//! nothing unsafe was done so far. Each kind of event keeps it.
#![tactic(auto)]

pub mod laws;
