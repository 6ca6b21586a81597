//! Expressions, comparisons of them, and uses of a name with arguments.
use fsl_base::{Boxed, List, Span};

/// `term { ( "+" | "-" ) term }`, grouped to the left.
#[cycle(expression)]
#[derive(Drop)]
pub struct Expression {
    pub first: Term,
    pub more: List<Addend>,
}

/// `( "+" | "-" ) term`
#[cycle(expression)]
#[derive(Drop)]
pub struct Addend {
    pub sign: Sign,
    pub term: Term,
}

/// `"+" | "-"`
#[derive(Clone, Copy)]
pub enum Sign {
    Plus { place: Span },
    Minus { place: Span },
}

/// `factor { "*" factor }`, grouped to the left.
#[cycle(expression)]
#[derive(Drop)]
pub struct Term {
    pub first: Factor,
    pub more: List<Multiplier>,
}

/// `"*" factor`
#[cycle(expression)]
#[derive(Drop)]
pub struct Multiplier {
    pub star: Span,
    pub factor: Factor,
}

/// `NUMBER | NAME | "result" | "-" factor | "(" expression ")"`
#[cycle(expression)]
#[derive(Drop)]
pub enum Factor {
    Number {
        place: Span,
        value: u64,
    },
    Name {
        place: Span,
    },
    Outcome {
        place: Span,
    },
    Negative {
        minus: Span,
        factor: Boxed<Factor>,
    },
    Group {
        open: Span,
        expression: Boxed<Expression>,
        close: Span,
    },
}

/// `"==" | "!=" | "<" | "<=" | ">" | ">="`
#[derive(Clone, Copy)]
pub enum Comparison {
    Equal { place: Span },
    NotEqual { place: Span },
    Less { place: Span },
    AtMost { place: Span },
    Greater { place: Span },
    AtLeast { place: Span },
}

/// `"true" | "false" | expression comparison expression`
#[derive(Drop)]
pub enum Condition {
    Always {
        place: Span,
    },
    Never {
        place: Span,
    },
    Compared {
        left: Expression,
        comparison: Comparison,
        right: Expression,
    },
}

/// `expression { "," expression }`
#[derive(Drop)]
pub struct Arguments {
    pub first: Expression,
    pub more: List<NextArgument>,
}

/// `"," expression`
#[derive(Drop)]
pub struct NextArgument {
    pub comma: Span,
    pub value: Expression,
}

/// `NAME "(" [ arguments ] ")"`: a procedure, an invariant or a predicate with its arguments.
#[derive(Drop)]
pub struct Use {
    pub name: Span,
    pub open: Span,
    pub arguments: Option<Arguments>,
    pub close: Span,
}
