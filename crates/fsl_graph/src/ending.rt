//! How runs end. The cause of an end stands in the graph of the run and in how its threads stand after it.

/// A limit of the machine.
#[derive(Clone, Copy, Debug, PartialEq, Eq)]
pub enum LimitKind {
    /// 1024 locations were allocated.
    Locations,
    /// There are 65536 writes.
    Messages,
    /// There would be more than 1024 threads.
    Threads,
}

/// How a run ends.
#[derive(Clone, Copy, Debug, PartialEq, Eq)]
pub enum End {
    /// Every thread has returned.
    Finished,
    /// No thread can move; this is the first that has halted or failed, by its number.
    Halted { thread: u32 },
    /// The moves add up to the bound.
    Spent,
    /// The next move would pass a limit.
    Limit { kind: LimitKind },
}
