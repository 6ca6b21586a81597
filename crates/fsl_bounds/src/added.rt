//! What became of a bound.

/// What became of a bound.
#[derive(Clone, Copy, Debug, PartialEq, Eq)]
pub enum Added {
    /// It holds with those that were there, and was added.
    Feasible,
    /// A closed walk through it has a total below 0, and nothing was added.
    Infeasible,
}
