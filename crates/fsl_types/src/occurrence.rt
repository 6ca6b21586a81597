//! What a tree has that a rule speaks of, with what is known there. The rules are in `specs/Faults.antt`.
use crate::variable::Sort;
use fsl_base::Span;
use fsl_tree::Mode;

/// What is due where a variable is named.
#[derive(Clone, Copy, Debug, PartialEq, Eq)]
pub enum Due {
    /// A number.
    Number,
    /// A bank.
    Bank,
    /// A number that may be assigned.
    Target,
    /// Either: an argument without a parameter.
    Any,
}

/// An access of a location, by the modes that it may have.
#[derive(Clone, Copy)]
pub enum Access {
    Load,
    Store,
    /// A read-modify-write.
    Update,
    /// The read of a compare-exchange that finds another value.
    Failure,
}

/// Something in a tree that a rule speaks of. Its place is that of its name, its word or its first token.
#[derive(Clone, Copy)]
pub enum Occurrence {
    /// A variable is named; `sort` is what it is, where it is visible.
    Variable {
        place: Span,
        due: Due,
        sort: Option<Sort>,
    },
    /// An expression that isn't a name alone, where a bank is due.
    Compound {
        place: Span,
    },
    /// `result`
    Outcome {
        place: Span,
        in_ensures: bool,
    },
    /// A name is declared: whether it stands for something already, how many are declared before it, and
    /// how many there may be.
    Declared {
        place: Span,
        stands: bool,
        before: u32,
        limit: u32,
    },
    /// The mode of an access.
    Moded {
        access: Access,
        mode: Mode,
    },
    /// `return`
    Return {
        place: Span,
        in_loop: bool,
    },
    /// An invariant or a procedure is used; `fits` says where it is known whether there are as many arguments
    /// as parameters.
    Used {
        place: Span,
        fits: Option<bool>,
    },
    /// `up` or `down`
    Modality {
        place: Span,
        allowed: bool,
    },
    /// A procedure is named in a `par`.
    Child {
        place: Span,
        modal: bool,
    },
    /// A part of an invariant, by its brace.
    Part {
        place: Span,
        before: u32,
    },
    /// The number of a part in an `Acq`, and that of the last part where the invariant is known.
    PartNumber {
        place: Span,
        number: u64,
        last: Option<usize>,
    },
    /// An excluded value of an `Acq`.
    Excluded {
        place: Span,
        before: u32,
    },
    /// `par`
    Parallel {
        place: Span,
        calls: usize,
    },
    /// The end of the file.
    End {
        place: Span,
        has_main: bool,
    },
}
