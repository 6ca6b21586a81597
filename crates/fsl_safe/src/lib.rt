//! That a good program is safe in every consistent acyclic execution: `GoodIsSafe` in `specs/Threads.antt`, proved in
//! `proofs/Safety.antt`. It ranges over what contracts and invariants mean, so no clause can say it.
#![tactic(auto)]

pub mod laws;
