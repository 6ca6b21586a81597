//! Assertions of separation logic.
use crate::expression::{Arguments, Comparison, Condition, Expression, Use};
use fsl_base::{Boxed, List, Span};

/// `atom { "&*&" atom }`, grouped to the left.
#[cycle(assertion)]
#[derive(Drop)]
pub struct Assertion {
    pub first: Atom,
    pub more: List<Conjunct>,
}

/// `"&*&" atom`
#[cycle(assertion)]
#[derive(Drop)]
pub struct Conjunct {
    pub separate: Span,
    pub atom: Atom,
}

/// One part of an assertion.
#[cycle(assertion)]
#[derive(Drop)]
pub enum Atom {
    /// `"emp"`
    Empty {
        word: Span,
    },
    /// `"if" "(" condition ")" "{" assertion "}" "else" "{" assertion "}"`
    Choice {
        word: Span,
        open: Span,
        condition: Condition,
        close: Span,
        first_open: Span,
        first: Boxed<Assertion>,
        first_close: Span,
        otherwise: Span,
        second_open: Span,
        second: Boxed<Assertion>,
        second_close: Span,
    },
    /// `"up" "(" assertion ")"`
    Up {
        word: Span,
        open: Span,
        assertion: Boxed<Assertion>,
        close: Span,
    },
    /// `"down" "(" assertion ")"`
    Down {
        word: Span,
        open: Span,
        assertion: Boxed<Assertion>,
        close: Span,
    },
    /// `"Init" "(" expression ")"`
    Init {
        word: Span,
        open: Span,
        location: Expression,
        close: Span,
    },
    /// `"Rel" "(" expression "," use ")"`
    Rel {
        word: Span,
        open: Span,
        location: Expression,
        comma: Span,
        invariant: Use,
        close: Span,
    },
    /// `"RmwAcq" "(" expression "," use ")"`
    RmwAcq {
        word: Span,
        open: Span,
        location: Expression,
        comma: Span,
        invariant: Use,
        close: Span,
    },
    /// `"Acq" "(" expression "," use "," NUMBER "," "{" [ arguments ] "}" ")"`
    Acq {
        word: Span,
        open: Span,
        location: Expression,
        use_comma: Span,
        invariant: Use,
        part_comma: Span,
        part: Span,
        part_value: u64,
        set_comma: Span,
        set_open: Span,
        excluded: Option<Arguments>,
        set_close: Span,
        close: Span,
    },
    /// `( "Tok" | "Auth" ) "(" NAME "," expression ")"`
    Bank {
        word: BankWord,
        open: Span,
        bank: Span,
        comma: Span,
        amount: Expression,
        close: Span,
    },
    /// `expression ( comparison expression | "|->" [ "[" expression "]" ] pattern )`
    Related {
        left: Expression,
        relation: Relation,
    },
    /// `use` of a predicate
    Predicate {
        usage: Use,
    },
}

/// `"Tok" | "Auth"`
#[derive(Clone, Copy)]
pub enum BankWord {
    Tok { place: Span },
    Auth { place: Span },
}

/// `comparison expression | "|->" [ share ] pattern`
#[derive(Drop)]
pub enum Relation {
    Compared {
        comparison: Comparison,
        right: Expression,
    },
    PointsTo {
        arrow: Span,
        share: Option<Share>,
        pattern: Pattern,
    },
}

/// `"[" expression "]"`
#[derive(Drop)]
pub struct Share {
    pub open: Span,
    pub amount: Expression,
    pub close: Span,
}

/// `"_" | "?" NAME | expression`
#[derive(Drop)]
pub enum Pattern {
    Any { place: Span },
    Binder { mark: Span, name: Span },
    Value { value: Expression },
}
