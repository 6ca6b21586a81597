//! The judge of a program: its procedures on several workers, by the written rules; and that what it accepts is safe in
//! every execution.
#![tactic(auto)]

mod judging;

pub use judging::judge;
