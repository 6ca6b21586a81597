//! Tests of programs as values: which of them are programs, that copies succeed where there is memory, and values of
//! expressions. That each call answers what its contract says is proved where it stands; what these tests can catch is
//! that a definition lets through what it was made to refuse, or refuses what a text can say.
#![tactic(auto)]

#[cfg(test)]
mod bodies;
#[cfg(test)]
mod building;
#[cfg(test)]
mod copies;
#[cfg(test)]
mod declarations;
#[cfg(test)]
mod values;
#[cfg(test)]
mod wording;
