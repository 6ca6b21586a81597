//! How the move of a statement ends.
use crate::config::{Arm, Children, Frame};
use fsl_core::Label;

/// What becomes of a procedure that runs.
#[derive(Drop)]
pub enum Turn {
    /// It goes on, with the label of the move unless it is local.
    Goes { label: Option<Label> },
    /// It has this result.
    Returns { value: i64 },
    /// A number has left its range. A read-modify-write shows then what it has read.
    Halts { label: Option<Label> },
    /// An assertion has failed, or the answer is of another kind than what was asked.
    Fails,
}

/// The end of a statement's move.
#[derive(Drop)]
pub enum Done {
    /// Nothing is entered or started. A procedure that goes on does so behind the statement.
    Turns { turn: Turn },
    /// A block of the statement is entered.
    Enters { arm: Arm },
    /// A procedure is called.
    Calls { callee: Frame },
    /// Threads are started.
    Starts { children: Children, label: Label },
}
