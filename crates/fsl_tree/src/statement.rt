//! Statements and blocks.
use crate::assertion::Assertion;
use crate::declaration::Clause;
use crate::expression::{Condition, Expression, Use};
use crate::right_side::{Mode, RightSide, Step};
use fsl_base::{List, Span};

/// `"{" { statement } "}"`
#[cycle(statement)]
#[derive(Drop)]
pub struct Block {
    pub open: Span,
    pub statements: List<Statement>,
    pub close: Span,
}

/// One statement.
#[cycle(statement)]
#[derive(Drop)]
pub enum Statement {
    /// `"let" NAME "=" right_side ";"`
    Let {
        word: Span,
        name: Span,
        equals: Span,
        right: RightSide,
        semicolon: Span,
    },
    /// `NAME "=" right_side ";"`
    Assign {
        name: Span,
        equals: Span,
        right: RightSide,
        semicolon: Span,
    },
    /// `"store" mode "(" expression "," expression ")" ";"`
    Store {
        word: Span,
        mode: Mode,
        open: Span,
        location: Expression,
        comma: Span,
        value: Expression,
        close: Span,
        semicolon: Span,
    },
    /// `"call" use ";"`
    Call {
        word: Span,
        callee: Use,
        semicolon: Span,
    },
    /// `"par" "{" { use ";" } "}"`
    Parallel {
        word: Span,
        open: Span,
        calls: List<ParallelCall>,
        close: Span,
    },
    /// `"fence" ( "acq" | ( "rel" | "acqrel" ) "(" assertion ")" ) ";"`
    Fence {
        word: Span,
        kind: FenceKind,
        semicolon: Span,
    },
    /// `"if" "(" condition ")" block [ "else" block ]`
    If {
        word: Span,
        open: Span,
        condition: Condition,
        close: Span,
        then_block: Block,
        otherwise: Option<Otherwise>,
    },
    /// `"while" "(" condition ")" [ "inv" "(" assertion ")" ] block`
    While {
        word: Span,
        open: Span,
        condition: Condition,
        close: Span,
        invariant: Option<Clause>,
        body: Block,
    },
    /// `"assert" "(" condition ")" ";"`
    Assert {
        word: Span,
        open: Span,
        condition: Condition,
        close: Span,
        semicolon: Span,
    },
    /// `"print" "(" expression ")" ";"`
    Print {
        word: Span,
        open: Span,
        value: Expression,
        close: Span,
        semicolon: Span,
    },
    /// `"free" "(" expression ")" ";"`
    Free {
        word: Span,
        open: Span,
        location: Expression,
        close: Span,
        semicolon: Span,
    },
    /// `"return" [ expression ] ";"`
    Return {
        word: Span,
        value: Option<Expression>,
        semicolon: Span,
    },
    /// `"bank" NAME ";"`
    Bank {
        word: Span,
        name: Span,
        semicolon: Span,
    },
    /// `step ";"`
    Step {
        step: Step,
        semicolon: Span,
    },
}

/// `"else" block`
#[cycle(statement)]
#[derive(Drop)]
pub struct Otherwise {
    pub word: Span,
    pub block: Block,
}

/// `use ";"` in a `par`
#[derive(Drop)]
pub struct ParallelCall {
    pub callee: Use,
    pub semicolon: Span,
}

/// `"acq" | ( "rel" | "acqrel" ) "(" assertion ")"`
#[derive(Drop)]
pub enum FenceKind {
    Acquire {
        word: Span,
    },
    Release {
        word: ReleaseWord,
        open: Span,
        assertion: Assertion,
        close: Span,
    },
}

/// `"rel" | "acqrel"`
#[derive(Clone, Copy)]
pub enum ReleaseWord {
    Release { place: Span },
    AcquireRelease { place: Span },
}
