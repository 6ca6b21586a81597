//! The syntax tree of a program file: one type for each production of the grammar, with the place of
//! every token. `specs/Spelling` says which tokens spell a tree, `specs/Nesting` how deep it nests.
#![tactic(auto)]

mod assertion;
mod declaration;
mod expression;
mod file;
mod following;
pub mod laws;
mod printing;
mod right_side;
mod spell_assertions;
mod spell_declarations;
mod spell_expressions;
mod spell_right_sides;
mod spell_statements;
mod statement;

pub use assertion::{Assertion, Atom, BankWord, Conjunct, Pattern, Relation, Share};
pub use declaration::{
    Clause, Declaration, Invariant, NextParameter, Parameter, Parameters, Part, Predicate,
    Procedure,
};
pub use expression::{
    Addend, Arguments, Comparison, Condition, Expression, Factor, Multiplier, NextArgument, Sign,
    Term, Use,
};
pub use file::File;
pub use printing::print;
pub use right_side::{
    Allocation, Mode, RightSide, SharedCell, Step, StepLine, StepWord, UpdateWord, With,
};
pub use spell_declarations::spell;
pub use statement::{Block, FenceKind, Otherwise, ParallelCall, ReleaseWord, Statement};
