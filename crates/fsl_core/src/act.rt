//! Statements over numbered variables, procedures and invariants.

use crate::assertion::{Asrt, Inst};
use crate::expr::{Cond, Expr};
use crate::mode::Mode;
use fsl_base::{List, Span};

/// A statement with its place in the file.
#[cycle(act)]
#[derive(Drop)]
pub struct Stmt {
    pub span: Span,
    pub act: Act,
}

/// What a statement does. A `slot` is the variable that is set.
#[cycle(act)]
#[derive(Drop)]
pub enum Act {
    /// Sets a variable.
    Set {
        slot: u32,
        e: Expr,
    },
    /// Allocates a non-atomic cell.
    AllocNa {
        slot: u32,
    },
    /// Allocates an atomic location with its invariant, for read-modify-writes where `rmw` is set.
    AllocAt {
        slot: u32,
        rmw: bool,
        inst: Inst,
    },
    /// Gives a non-atomic cell back.
    Free {
        at: Expr,
    },
    /// Reads a location; the mode is `Na`, `Rlx` or `Acq`.
    Load {
        slot: u32,
        mode: Mode,
        at: Expr,
    },
    /// Writes a location; the mode is `Na`, `Rlx` or `Rel`.
    Store {
        mode: Mode,
        at: Expr,
        e: Expr,
    },
    /// A strong compare-exchange; `fail`, the mode of the failing read, is `Rlx` or `Acq`.
    Cas {
        slot: u32,
        mode: Mode,
        fail: Mode,
        at: Expr,
        old: Expr,
        new: Expr,
        steps: List<Step>,
    },
    /// Adds to a location and reads its old value.
    Add {
        slot: u32,
        mode: Mode,
        at: Expr,
        e: Expr,
        steps: List<Step>,
    },
    /// Exchanges the value of a location.
    Swap {
        slot: u32,
        mode: Mode,
        at: Expr,
        e: Expr,
        steps: List<Step>,
    },
    /// Calls a procedure.
    Call {
        slot: Option<u32>,
        proc: u32,
        args: List<Expr>,
    },
    /// Runs 2 to 8 calls as threads, and waits for all.
    Par {
        calls: List<Called>,
    },
    /// A fence; the assertion is what a releasing one sets apart, `Emp` for an acquire fence.
    Fence {
        mode: Mode,
        asrt: Asrt,
    },
    /// A branch; an absent `else` is an empty list.
    If {
        cond: Cond,
        yes: List<Stmt>,
        no: List<Stmt>,
    },
    /// A loop with its invariant.
    While {
        cond: Cond,
        inv: Asrt,
        body: List<Stmt>,
    },
    /// A condition that must hold.
    Assert {
        cond: Cond,
    },
    /// Prints a number.
    Print {
        e: Expr,
    },
    /// Ends the procedure with a result.
    Return {
        e: Expr,
    },
    /// Makes a bank of counting tokens.
    Bank {
        slot: u32,
    },
    /// Makes or burns tokens.
    Step {
        step: Step,
    },
}

/// A call of a procedure by its number.
#[derive(Drop)]
pub struct Called {
    pub proc: u32,
    pub args: List<Expr>,
}

/// Makes (`mint`) or burns tokens of a bank.
#[derive(Drop)]
pub struct Step {
    pub mint: bool,
    pub bank: u32,
    pub n: Expr,
}
