//! What a program declares: invariants and procedures over numbered variables, called slots. In a procedure the
//! parameters come first, then the binders of its contract, then the variables of its body.

use crate::act::Stmt;
use crate::assertion::Asrt;
use fsl_base::{List, Span, Text};

/// An invariant of atomic locations. Its slots are its parameters, its value, its binders.
#[derive(Drop)]
pub struct Inv {
    pub name: Text,
    pub params: u32,
    pub slots: u32,
    /// 1 to 8 parts, each acquired apart.
    pub parts: List<Asrt>,
}

/// A procedure with its contract.
#[derive(Drop)]
pub struct Proc {
    pub name: Text,
    pub params: u32,
    /// How many variables there are, at most 256.
    pub slots: u32,
    /// The slots that are banks.
    pub banks: List<u32>,
    /// `requires`
    pub pre: Asrt,
    /// `ensures`
    pub post: Asrt,
    pub body: List<Stmt>,
    /// The closing brace.
    pub last: Span,
}
