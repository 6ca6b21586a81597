//! Moves of a thread. A configuration keeps where it stands in the program and the values of the variables, so that a
//! move takes no copies of statements, and the time of its statement and of the depth at which that stands.
//! `specs/Done.antt` says of acts, their ends and their needs what `acts`, `accesses`, `calls` and `needs` promise.
#![tactic(auto)]

mod accesses;
mod acts;
mod calls;
mod config;
mod done;
mod label;
mod lists;
mod moves;
mod needs;
mod reach;
mod turn;

pub use config::{Arm, Children, Config, Entry, Frame, standing};
pub use label::{label_of, update_of};
pub use moves::{advance, next, start};
