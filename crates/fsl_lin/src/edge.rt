//! Bounds on differences, as edges of a graph.

/// The bound `from - to <= bound` between two nodes. Node 0 is zero, and node s + 1 is symbol s.
#[derive(Clone, Copy, Debug, PartialEq, Eq)]
pub struct Edge {
    pub from: u32,
    pub to: u32,
    pub bound: i128,
}
