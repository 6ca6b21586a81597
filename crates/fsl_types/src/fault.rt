//! What is wrong with a tree that is no program. Which faults a tree has is defined in `specs/Faults.antt`.
use fsl_base::Span;

/// The kinds of faults. Of several at one place the first in this order is named.
#[derive(Clone, Copy, Debug, PartialEq, Eq)]
pub enum TypeKind {
    /// A name that is no visible variable, no procedure or no invariant.
    Unknown,
    /// A name that stands for something else there.
    Twice,
    /// A mode, a bank, a number, a `result` or a `return` where it can't be.
    Type_,
    /// Another number of arguments than of parameters.
    Arity,
    /// A modality where none may be.
    Modal,
    /// A ninth part, or the number of a part that isn't there.
    Parts,
    /// One more than there may be, or a `par` of fewer than two calls.
    Count,
    /// No procedure `main` without parameters and `requires`.
    NoMain,
}

/// A fault and its place, in bytes of the file.
#[derive(Clone, Copy, Debug, PartialEq, Eq)]
pub struct Fault {
    pub kind: TypeKind,
    pub span: Span,
}

/// Why a tree is no program.
#[derive(Clone, Copy, Debug, PartialEq, Eq)]
pub enum TypeFault {
    /// The fault with the least place, in bytes of the file.
    Fault { kind: TypeKind, span: Span },
    /// There was no memory.
    NoMemory,
}
