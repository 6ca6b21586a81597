//! Kinds of failure, the outcome of a procedure and the verdict on a program.

use fsl_base::Span;

/// What a path of a procedure can fail by.
#[derive(Clone, Copy, Debug, PartialEq, Eq)]
pub enum Kind {
    /// A cell may be read before it is written.
    Uninit,
    /// A cell is not owned.
    Points,
    /// Not enough of a cell is owned.
    Share,
    /// A cell may hold another value than is said.
    Value,
    /// An atomic location may not have been written yet.
    Init,
    /// There is no leave to write, or what the write gives away is lacking.
    Rel,
    /// There is no leave to acquire.
    Acq,
    /// There is no leave to read-modify-write.
    Rmw,
    /// Tokens are lacking.
    Token,
    /// An `assert` may fail.
    Assert,
    /// A condition inside an invariant or a fence may not hold.
    Cond,
    /// A fact of a `requires` may not hold at a call.
    Pre,
    /// A fact of an `ensures` may not hold.
    Post,
    /// A fact of a loop's invariant may not hold.
    Loop,
    /// There are more than 65536 paths.
    Paths,
    /// A path makes more than 512 symbols.
    Symbols,
    /// A path holds more than 512 chunks.
    Chunks,
    /// An expression is no linear term, or a number passes its bound.
    Term,
}

/// Where an assertion is consumed: the kind by which a fact of it fails.
#[derive(Clone, Copy, Debug, PartialEq, Eq)]
pub enum Mood {
    Pre,
    Post,
    Loop,
    Cond,
}

/// What became of one procedure.
#[derive(Clone, Copy, Debug, PartialEq, Eq)]
pub enum Outcome {
    /// Every path ends; there are so many.
    Derived { paths: u32 },
    /// The least failing path fails here.
    Fails { proc: u32, span: Span, kind: Kind },
}

/// What became of a program.
#[derive(Clone, Copy, Debug, PartialEq, Eq)]
pub enum Verdict {
    /// Every procedure is derived; there are so many.
    Accepted { procs: u32 },
    /// The least failing procedure fails here.
    Failed { proc: u32, span: Span, kind: Kind },
}
