//! Assertions of the logic: what a procedure, a loop or a location's invariant owns and knows.

use crate::expr::{Cond, Expr};
use fsl_base::{Boxed, List};

/// An invariant of a location with its arguments.
#[derive(Drop)]
pub struct Inst {
    /// The number of the invariant in its program.
    pub inv: u32,
    pub args: List<Expr>,
}

/// What a points-to says of the value.
#[derive(Drop)]
pub enum Pat {
    /// `_`: nothing.
    Any,
    /// `?x`: the value is known, and the slot stands for it.
    Bind { slot: u32 },
    /// The value is that of an expression.
    Is { e: Expr },
}

/// An assertion.
#[derive(Drop)]
pub enum Asrt {
    /// Nothing is owned and nothing is known.
    Emp,
    /// A condition holds.
    Fact {
        cond: Cond,
    },
    /// A share of a non-atomic cell, with its value as the pattern says.
    Points {
        at: Expr,
        share: Expr,
        pat: Pat,
    },
    /// An atomic location has been written.
    Init {
        at: Expr,
    },
    /// Leave to write an atomic location under an invariant.
    Rel {
        at: Expr,
        inst: Inst,
    },
    /// Leave to acquire one part of an invariant, but for the values that were read already.
    Acq {
        at: Expr,
        inst: Inst,
        part: u32,
        out: List<Expr>,
    },
    /// Leave to read-modify-write an atomic location under an invariant.
    RmwAcq {
        at: Expr,
        inst: Inst,
    },
    /// Counting tokens of a bank.
    Tok {
        bank: u32,
        n: Expr,
    },
    /// The authority over a bank: how many tokens there may be.
    Auth {
        bank: u32,
        n: Expr,
    },
    /// One of two assertions, as a condition says.
    Choice {
        cond: Cond,
        yes: Boxed<Asrt>,
        no: Boxed<Asrt>,
    },
    /// What a release fence has set apart for relaxed writes.
    Up {
        a: Boxed<Asrt>,
    },
    /// What a relaxed read has gained and an acquire fence will give.
    Down {
        a: Boxed<Asrt>,
    },
    /// Several assertions, of parts that are apart. Without parts it means `Emp`.
    Both {
        parts: List<Asrt>,
    },
}
