//! Tests of reading: files that are read, faults with their exact places, and whole programs whose printed trees read
//! back. That `parse` answers what its contract says is proved where it stands.
#![tactic(auto)]

#[cfg(test)]
mod programs;
#[cfg(test)]
mod reading;
