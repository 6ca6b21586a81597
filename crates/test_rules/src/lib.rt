//! Tests of the rules on small program texts, in tables. That each call answers what the definitions say is proved
//! where it stands; what these tests can catch is that the definitions say something else than was meant (branches in
//! another order, a share or a kind of failure, one path too many), and that a call finds no memory where there is
//! some. The wanted answers were worked out by hand from `docs/RULES.md`.
#![tactic(auto)]

#[cfg(test)]
mod asking;
#[cfg(test)]
mod asserting;
#[cfg(test)]
mod atomics;
#[cfg(test)]
mod changing;
#[cfg(test)]
mod gains;
#[cfg(test)]
mod outcomes;
#[cfg(test)]
mod reading;
#[cfg(test)]
mod starting;
#[cfg(test)]
mod well_formed;
#[cfg(test)]
mod writing;
