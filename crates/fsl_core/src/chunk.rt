//! Chunks: the pieces of what a path owns and may do.

use crate::mode::Rung;
use fsl_base::List;
use fsl_lin::Lin;

/// A piece of what a path owns and may do, in terms over its symbols.
#[derive(Drop)]
pub enum Chunk {
    /// A share of a non-atomic cell, with its value where that is known.
    Points {
        rung: Rung,
        at: Lin,
        share: Lin,
        value: Option<Lin>,
    },
    /// An atomic location has been written.
    Init {
        rung: Rung,
        at: Lin,
    },
    /// Leave to write an atomic location under an invariant.
    Rel {
        at: Lin,
        inv: u32,
        args: List<Lin>,
    },
    /// Leave to acquire one part of an invariant, but for the values that were read already.
    Acq {
        at: Lin,
        inv: u32,
        args: List<Lin>,
        part: u32,
        out: List<Lin>,
    },
    /// Leave to read-modify-write an atomic location under an invariant.
    RmwAcq {
        at: Lin,
        inv: u32,
        args: List<Lin>,
    },
    /// Counting tokens of a bank.
    Tok {
        bank: Lin,
        n: Lin,
    },
    /// The authority over a bank.
    Auth {
        bank: Lin,
        n: Lin,
    },
}
