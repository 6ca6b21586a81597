//! Whole runs of the commands over a shelf and a sink in memory. What no clause says is that memory is found, and which
//! bytes are which program.
#![tactic(auto)]

#[cfg(test)]
mod atomics;
#[cfg(test)]
mod calls;
#[cfg(test)]
mod examples;
#[cfg(test)]
mod limits;
#[cfg(test)]
mod mutants;
#[cfg(test)]
mod refusals;
#[cfg(test)]
mod running;
#[cfg(test)]
mod runs;
#[cfg(test)]
mod verdicts;
#[cfg(test)]
mod walks;
