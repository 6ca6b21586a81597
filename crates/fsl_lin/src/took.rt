//! What became of an equation.
use crate::sym::Sym;

/// What became of an equation `t = 0` that was assumed, by the normal form of t.
#[derive(Clone, Copy, Debug, PartialEq, Eq)]
pub enum Took {
    /// It is kept, and this symbol, the greatest with coefficient 1 or -1, stands in no other equation.
    Pivot { sym: Sym },
    /// The normal form is 0: it followed from those that were there.
    Trivial,
    /// The normal form is another constant.
    Absurd,
    /// The normal form is no constant, and has no coefficient 1 or -1.
    NoPivot,
}
