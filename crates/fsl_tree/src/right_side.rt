//! What an assignment gives its variable.
use crate::expression::{Expression, Use};
use fsl_base::{List, Span};

/// What stands to the right of an assignment's `=`.
#[derive(Drop)]
pub enum RightSide {
    /// `expression`
    Value {
        value: Expression,
    },
    /// `"call" use`
    Call {
        word: Span,
        callee: Use,
    },
    /// `"alloc" ( "na" | ( "acq" | "rmw" ) use )`
    Allocate {
        word: Span,
        allocation: Allocation,
    },
    /// `"load" mode "(" expression ")"`
    Load {
        word: Span,
        mode: Mode,
        open: Span,
        location: Expression,
        close: Span,
    },
    /// `"cas" mode mode "(" expression "," expression "," expression ")" [ with ]`
    CompareAndSwap {
        word: Span,
        success: Mode,
        failure: Mode,
        open: Span,
        location: Expression,
        expected_comma: Span,
        expected: Expression,
        new_comma: Span,
        new: Expression,
        close: Span,
        with: Option<With>,
    },
    /// `( "fetch_add" | "exchange" ) mode "(" expression "," expression ")" [ with ]`
    Update {
        word: UpdateWord,
        mode: Mode,
        open: Span,
        location: Expression,
        comma: Span,
        operand: Expression,
        close: Span,
        with: Option<With>,
    },
}

/// `"na" | ( "acq" | "rmw" ) use`
#[derive(Drop)]
pub enum Allocation {
    NonAtomic { word: Span },
    Shared { cell: SharedCell, invariant: Use },
}

/// `"acq" | "rmw"`
#[derive(Clone, Copy)]
pub enum SharedCell {
    Acq { place: Span },
    Rmw { place: Span },
}

/// `"fetch_add" | "exchange"`
#[derive(Clone, Copy)]
pub enum UpdateWord {
    FetchAdd { place: Span },
    Exchange { place: Span },
}

/// `"na" | "rlx" | "acq" | "rel" | "acqrel"`
#[derive(Clone, Copy)]
pub enum Mode {
    NonAtomic { place: Span },
    Relaxed { place: Span },
    Acquire { place: Span },
    Release { place: Span },
    AcquireRelease { place: Span },
}

/// `"with" "{" { step ";" } "}"`
#[derive(Drop)]
pub struct With {
    pub word: Span,
    pub open: Span,
    pub steps: List<StepLine>,
    pub close: Span,
}

/// `step ";"`
#[derive(Drop)]
pub struct StepLine {
    pub step: Step,
    pub semicolon: Span,
}

/// `( "mint" | "burn" ) "(" NAME "," expression ")"`
#[derive(Drop)]
pub struct Step {
    pub word: StepWord,
    pub open: Span,
    pub bank: Span,
    pub comma: Span,
    pub amount: Expression,
    pub close: Span,
}

/// `"mint" | "burn"`
#[derive(Clone, Copy)]
pub enum StepWord {
    Mint { place: Span },
    Burn { place: Span },
}
