//! Labels: what a move of a thread shows to the memory and to the other threads.

use crate::mode::{AllocKind, Mode};
use fsl_base::List;

/// A move that isn't local.
#[derive(Drop)]
pub enum Label {
    Alloc {
        kind: AllocKind,
        loc: i64,
    },
    Free {
        loc: i64,
    },
    Load {
        mode: Mode,
        loc: i64,
        value: i64,
    },
    Store {
        mode: Mode,
        loc: i64,
        value: i64,
    },
    Rmw {
        mode: Mode,
        loc: i64,
        old: i64,
        new: i64,
    },
    Fence {
        mode: Mode,
    },
    Fork {
        children: List<u32>,
    },
    Join {
        results: List<Ended>,
    },
    Print {
        value: i64,
    },
    End {
        value: i64,
    },
}

/// A thread that has returned, with its result.
#[derive(Clone, Copy, Debug, PartialEq, Eq)]
pub struct Ended {
    pub thread: u32,
    pub value: i64,
}
