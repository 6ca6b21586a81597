//! The grammar as readers: what comes of reading tokens from the left, one definition for each production
//! (`specs/Read*`), and the groups of tokens that several productions share.
//!
//! The laws of the readers need no code (`proofs`). `Sound*`: what is found has the tokens that were read, and nests
//! within the room. `Whole*`: every tree is found in its own tokens. `Local*`: only the tokens that are read make a
//! difference. `Begun*`: what was read before a fault begins a tree. `Level*`: what is too deep is so by the brackets
//! that are open.
#![tactic(auto)]

mod fault;
mod groups;

pub use fault::Fault;
pub use groups::{
    Arm, Contracted, Enclosed, Ensured, ExcludedSet, Guarded, Header, Held, Numeral, Pair,
    Permission, Test, Triple,
};
