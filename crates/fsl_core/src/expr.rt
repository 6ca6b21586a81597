//! Expressions over numbered variables, and conditions on them. A chain of one operator is one list,
//! so that the depth of a tree is bounded by the nesting of the source.

use fsl_base::{Boxed, List};

/// An expression over whole numbers.
#[cycle(expr)]
#[derive(Drop)]
pub enum Expr {
    /// A constant, at most 2^63 in size.
    Const { n: i128 },
    /// The variable of a slot.
    Var { slot: u32 },
    /// The result of the procedure, in an `ensures` alone.
    Result_,
    /// The negation of an expression.
    Neg { e: Boxed<Expr> },
    /// A chain of `+` and `-`, of at least two parts, added to 0 from the left. The first isn't minus.
    Sum { parts: List<Part> },
    /// A chain of `*`, of at least two factors, multiplied with 1 from the left.
    Product { parts: List<Expr> },
}

/// A part of a sum, with its sign.
#[cycle(expr)]
#[derive(Drop)]
pub struct Part {
    pub minus: bool,
    pub e: Expr,
}

/// A condition.
#[derive(Drop)]
pub enum Cond {
    /// `true`
    Yes,
    /// `false`
    No,
    /// A comparison of the left with the right side.
    Cmp { op: CmpOp, l: Expr, r: Expr },
}

/// A comparison: `==`, `!=`, `<`, `<=`, `>`, `>=`.
#[derive(Clone, Copy, Debug, PartialEq, Eq)]
pub enum CmpOp {
    Eq,
    Ne,
    Lt,
    Le,
    Gt,
    Ge,
}
