//! Memory orders of accesses, and where a resource is held.

/// The order of an access or fence (C11 7.17.3), or non-atomic.
#[derive(Clone, Copy, Debug, PartialEq, Eq)]
pub enum Mode {
    /// Not atomic.
    Na,
    Rlx,
    Acq,
    Rel,
    AcqRel,
}

/// Where a thread holds a points-to or an `Init`.
#[derive(Clone, Copy, Debug, PartialEq, Eq)]
pub enum Rung {
    /// To be used.
    Plain,
    /// Set apart by a release fence for relaxed writes.
    Up,
    /// Gained by relaxed reads, until an acquire fence.
    Down,
    /// Inside a read-modify-write: what the message that it reads holds.
    Msg,
}

/// What a location was allocated for.
#[derive(Clone, Copy, Debug, PartialEq, Eq)]
pub enum AllocKind {
    /// Non-atomic accesses.
    Na,
    /// Atomic stores, and loads that acquire parts of an invariant.
    Acq,
    /// Atomic stores and read-modify-writes.
    Rmw,
}
