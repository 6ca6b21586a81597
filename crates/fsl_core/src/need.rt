//! What the next move of a thread asks of the memory and the scheduler, and what they answer.

use crate::mode::{AllocKind, Mode};
use fsl_base::List;

/// What the next move asks.
#[derive(Drop)]
pub enum Need {
    /// Nothing: the move is local.
    Local,
    Load {
        mode: Mode,
        loc: i64,
    },
    Store {
        mode: Mode,
        loc: i64,
        value: i64,
    },
    /// A read-modify-write, with the mode of a read that doesn't write.
    Rmw {
        mode: Mode,
        fail: Mode,
        loc: i64,
        op: RmwOp,
    },
    Fence {
        mode: Mode,
    },
    Alloc {
        kind: AllocKind,
    },
    Free {
        loc: i64,
    },
    Fork {
        calls: List<Started>,
    },
    Join {
        children: List<u32>,
    },
    Print {
        value: i64,
    },
    End {
        value: i64,
    },
    /// An assertion has failed.
    Failed,
    /// A number has left its range.
    Halted,
    Returned {
        value: i64,
    },
}

/// What a read-modify-write makes of the value that it reads.
#[derive(Clone, Copy, Debug, PartialEq, Eq)]
pub enum RmwOp {
    Add { n: i64 },
    Swap { n: i64 },
    Cas { old: i64, new: i64 },
}

/// A thread to be started: its procedure and arguments.
#[derive(Drop)]
pub struct Started {
    pub proc: u32,
    pub args: List<i64>,
}

/// What a move is answered.
#[derive(Drop)]
pub enum Reply {
    Nothing,
    /// The value read.
    Read { value: i64 },
    /// The location allocated.
    Place { loc: i64 },
    /// The number of the first thread started; the others follow it.
    Threads { first: u32 },
    /// The results of the threads that were joined.
    Results { values: List<i64> },
}

/// How a thread stands.
#[derive(Clone, Copy, Debug, PartialEq, Eq)]
pub enum Standing {
    /// Its next move waits for `count` threads from `first` on.
    Joining { first: u32, count: u32 },
    Returned { value: i64 },
    Halted,
    Failed,
    Going,
}
