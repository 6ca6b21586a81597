//! The commands of the program and the top call, over any shelf, sink and gate. An answer is composed first, and then
//! pushed once.
#![tactic(auto)]

mod answer;
mod check;
mod command;
mod loading;
mod run;
mod status;
mod top;
mod unread;

pub use answer::Answer;
pub use check::check_cmd;
pub use command::Command;
pub use loading::{Loaded, read_program};
pub use run::run_cmd;
pub use status::Status;
pub use top::fslpp;
pub use unread::Unread;
