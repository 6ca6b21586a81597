//! Groups of tokens that several productions share; the tree itself has their parts one by one.
use fsl_base::{Boxed, Span};
use fsl_tree::{
    Arguments, Assertion, Block, Clause, Condition, Expression, NextArgument, Parameters, Use,
};

/// A word and `"(" expression ")"`
#[derive(Drop)]
pub struct Enclosed {
    pub word: Span,
    pub open: Span,
    pub expression: Expression,
    pub close: Span,
}

/// A word and `"(" condition ")"`
#[derive(Drop)]
pub struct Test {
    pub word: Span,
    pub open: Span,
    pub condition: Condition,
    pub close: Span,
}

/// `expression "," use`
#[derive(Drop)]
pub struct Held {
    pub location: Expression,
    pub comma: Span,
    pub invariant: Use,
}

/// `"{" [ arguments ] "}"`
#[derive(Drop)]
pub struct ExcludedSet {
    pub open: Span,
    pub excluded: Option<Arguments>,
    pub close: Span,
}

/// A word and `"(" expression "," use ")"`
#[derive(Drop)]
pub struct Permission {
    pub word: Span,
    pub open: Span,
    pub held: Held,
    pub close: Span,
}

/// `"(" expression "," expression ")"`
#[derive(Drop)]
pub struct Pair {
    pub open: Span,
    pub location: Expression,
    pub value: NextArgument,
    pub close: Span,
}

/// `"(" expression "," expression "," expression ")"`
#[derive(Drop)]
pub struct Triple {
    pub open: Span,
    pub location: Expression,
    pub expected: NextArgument,
    pub new: NextArgument,
    pub close: Span,
}

/// A word, `NAME "(" [ parameters ] ")"`
#[derive(Drop)]
pub struct Header {
    pub word: Span,
    pub name: Span,
    pub open: Span,
    pub parameters: Option<Parameters>,
    pub close: Span,
}

/// `"{" assertion "}"`, the assertion on the heap
#[derive(Drop)]
pub struct Arm {
    pub open: Span,
    pub assertion: Boxed<Assertion>,
    pub close: Span,
}

/// `[ "ensures" "(" assertion ")" ] block`
#[derive(Drop)]
pub struct Ensured {
    pub ensures_clause: Option<Clause>,
    pub body: Block,
}

/// `[ "requires" "(" assertion ")" ] [ "ensures" "(" assertion ")" ] block`
#[derive(Drop)]
pub struct Contracted {
    pub requires_clause: Option<Clause>,
    pub ensures_clause: Option<Clause>,
    pub body: Block,
}

/// `[ "inv" "(" assertion ")" ] block`
#[derive(Drop)]
pub struct Guarded {
    pub invariant: Option<Clause>,
    pub body: Block,
}

/// `NUMBER`, with its value
#[derive(Clone, Copy)]
pub struct Numeral {
    pub place: Span,
    pub value: u64,
}
