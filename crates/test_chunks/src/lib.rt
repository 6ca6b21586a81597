//! Tests of the states of paths: heaps of chunks, variables and facts. That each call answers what its contract says is
//! proved where it stands; what no clause says is that calls find memory where there is some.
#![tactic(auto)]

#[cfg(test)]
mod heaps;
