//! What is known of names: of variables, and of invariants and procedures where they are used. How it is found is
//! defined in `specs/Names.antt`.
use fsl_base::List;

/// What a variable holds, and whether it may be assigned.
#[derive(Clone, Copy, Debug, PartialEq, Eq)]
pub enum Sort {
    /// A number that is given: a parameter.
    Parameter,
    /// A number: a variable of the body, a binder or the value of an invariant.
    Local,
    /// A bank of counting tokens.
    Bank,
}

/// A variable.
#[derive(Clone, Copy)]
pub struct Variable {
    /// Its number among those of the procedure or the invariant, below 256.
    pub slot: u32,
    pub sort: Sort,
}

/// An invariant or a procedure, as its uses see it.
#[derive(Drop)]
pub struct Signature {
    /// How many of its kind are declared before it, at most 4096.
    pub number: u32,
    /// For each parameter whether it is a bank.
    pub banks: List<bool>,
    /// Of an invariant: the number of its last part, counted from 0.
    pub last_part: usize,
    /// Of a procedure: whether its contract has a modality.
    pub modal: bool,
    /// Of a procedure: whether it has neither parameters nor a `requires`.
    pub bare: bool,
}
