//! What the scopes of variables promise to the proof that the rules are sound: what code and assertions read is what
//! they are seen to read, and statements set nothing that isn't theirs.
#![tactic(auto)]

pub mod laws;
