//! What the other crates speak of: the checked program, its labels and moves, kinds of failure and
//! verdicts as types, and in `specs/` the rules of the logic as definitions.
#![tactic(auto)]

mod act;
mod assertion;
mod chunk;
mod copy_act;
mod copy_assertion;
mod copy_declaration;
mod copy_expr;
mod declaration;
mod expr;
mod fitting;
mod label;
pub mod laws;
mod mode;
mod need;
mod program;
mod same;
mod same_act;
mod same_assertion;
mod same_declaration;
mod same_expr;
mod scope;
mod scoping;
mod straight;
mod values;
mod verdict;
mod well_formed;
mod well_scoped;

pub use act::{Act, Called, Step, Stmt};
pub use assertion::{Asrt, Inst, Pat};
pub use chunk::Chunk;
pub use declaration::{Inv, Proc};
pub use expr::{CmpOp, Cond, Expr, Part};
pub use label::{Ended, Label};
pub use mode::{AllocKind, Mode, Rung};
pub use need::{Need, Reply, RmwOp, Standing, Started};
pub use program::Program;
pub use straight::is_straight;
pub use values::{eval, holds};
pub use verdict::{Kind, Mood, Outcome, Verdict};
