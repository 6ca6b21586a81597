//! What a step does, and when it is refused.

use fsl_graph::LimitKind;

/// How a thread stands.
#[derive(Clone, Copy, Debug, PartialEq, Eq)]
pub enum Readiness {
    /// It can move.
    Ready,
    /// It waits for a thread that has not returned.
    Waiting,
    /// It has returned.
    Done,
    /// A number has left its range.
    Halted,
    /// An assertion has failed.
    Failed,
}

/// What a step did. All but a move leave the machine as it was.
#[derive(Clone, Copy, Debug, PartialEq, Eq)]
pub enum Stepped {
    /// The thread has made its move.
    Moved,
    /// The thread can't move.
    NotReady { why: Readiness },
    /// The moves add up to the bound.
    Spent,
    /// The move would pass a limit.
    Limit { kind: LimitKind },
    /// There is no memory for the event of the move.
    NoMemory,
}
