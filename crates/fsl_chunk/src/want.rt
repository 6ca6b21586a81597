//! What is sought among chunks.
use crate::leave::Leave;
use fsl_base::List;
use fsl_core::Rung;
use fsl_lin::Lin;

/// A chunk that is sought. Addresses, banks and arguments fit where they are proved equal.
#[derive(Clone, Copy)]
pub enum Want<'a, 's> {
    /// A share of a cell.
    Points {
        rung: Rung,
        at: &'a Lin,
    },
    /// A share of a cell that is proved to be at least this one.
    Enough {
        rung: Rung,
        at: &'a Lin,
        share: &'s Lin,
    },
    Init {
        rung: Rung,
        at: &'a Lin,
    },
    Rel {
        at: &'a Lin,
    },
    RmwAcq {
        at: &'a Lin,
    },
    /// Leave to write a location under this invariant with these arguments.
    RelOf {
        leave: &'a Leave,
    },
    /// Leave to read-modify-write a location under this invariant with these arguments.
    RmwOf {
        leave: &'a Leave,
    },
    /// Leave to acquire this part, which excludes no other values than these.
    AcqOf {
        leave: &'a Leave,
        part: u32,
        out: &'s List<Lin>,
    },
    Tok {
        bank: &'a Lin,
    },
    Auth {
        bank: &'a Lin,
    },
}
