//! What a decision between two terms can assume on one of its branches.

/// What is assumed of two terms a and b on one branch.
#[derive(Clone, Copy, Debug, PartialEq, Eq)]
pub enum Given {
    /// Nothing.
    Nothing,
    /// a = b
    Equal,
    /// a + 1 <= b
    Less,
    /// a <= b
    AtMost,
    /// b + 1 <= a
    Greater,
    /// b <= a
    AtLeast,
}

/// An answer of a decision, and what is assumed for it.
#[derive(Clone, Copy, Debug, PartialEq, Eq)]
pub struct Side {
    pub holds: bool,
    pub given: Given,
}
