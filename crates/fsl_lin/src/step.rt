//! What an equation makes of those that are there.
use crate::equation::Equation;
use crate::sym::Sym;
use crate::took::Took;

/// What an equation makes of those that are there.
#[derive(Drop)]
pub enum Step {
    /// They are these now.
    More { sym: Sym, equations: Vec<Equation> },
    /// They stay.
    Same { took: Took },
}
