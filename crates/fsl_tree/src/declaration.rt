//! Invariants of locations, named predicates and procedures.
use crate::assertion::Assertion;
use crate::statement::Block;
use fsl_base::{List, Span};

/// `invariant | predicate | procedure`
#[derive(Drop)]
pub enum Declaration {
    Invariant { invariant: Invariant },
    Predicate { predicate: Predicate },
    Procedure { procedure: Procedure },
}

/// `"inv" NAME "(" [ parameters ] ")" "of" NAME "{" assertion "}" { "{" assertion "}" }`
#[derive(Drop)]
pub struct Invariant {
    pub word: Span,
    pub name: Span,
    pub open: Span,
    pub parameters: Option<Parameters>,
    pub close: Span,
    pub of: Span,
    pub value: Span,
    pub first: Part,
    pub more: List<Part>,
}

/// `"{" assertion "}"`
#[derive(Drop)]
pub struct Part {
    pub open: Span,
    pub assertion: Assertion,
    pub close: Span,
}

/// `"pred" NAME "(" [ parameters ] ")" "{" assertion "}"`
#[derive(Drop)]
pub struct Predicate {
    pub word: Span,
    pub name: Span,
    pub open: Span,
    pub parameters: Option<Parameters>,
    pub close: Span,
    pub body: Part,
}

/// `"proc" NAME "(" [ parameters ] ")" [ "requires" "(" assertion ")" ] [ "ensures" "(" assertion ")" ] block`
#[derive(Drop)]
pub struct Procedure {
    pub word: Span,
    pub name: Span,
    pub open: Span,
    pub parameters: Option<Parameters>,
    pub close: Span,
    pub requires_clause: Option<Clause>,
    pub ensures_clause: Option<Clause>,
    pub body: Block,
}

/// A word and `"(" assertion ")"`, the word being `requires`, `ensures` or `inv` by where it stands.
#[derive(Drop)]
pub struct Clause {
    pub word: Span,
    pub open: Span,
    pub assertion: Assertion,
    pub close: Span,
}

/// `parameter { "," parameter }`
#[derive(Drop)]
pub struct Parameters {
    pub first: Parameter,
    pub more: List<NextParameter>,
}

/// `"," parameter`
#[derive(Drop)]
pub struct NextParameter {
    pub comma: Span,
    pub parameter: Parameter,
}

/// `[ "bank" ] NAME`
#[derive(Clone, Copy)]
pub struct Parameter {
    pub bank: Option<Span>,
    pub name: Span,
}
