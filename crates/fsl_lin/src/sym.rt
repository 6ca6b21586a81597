//! Symbols: the unknowns that a path of a procedure is followed with.

/// A symbol, by its number in the order in which symbols are made. It is below 512 wherever one is asked
/// for.
#[derive(Clone, Copy, Debug, PartialEq, Eq)]
pub struct Sym(pub u32);
