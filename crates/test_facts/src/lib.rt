//! Tests of the crates of facts: combinations and equations, least walks, and fact sets with what they prove. That each
//! call answers what its contract says is proved where it stands; these tests call each once on values worked out by hand.
#![tactic(auto)]

#[cfg(test)]
mod bounds;
#[cfg(test)]
mod combinations;
#[cfg(test)]
mod facts;
