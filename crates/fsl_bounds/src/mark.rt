//! What bounds on differences were at some time.
use crate::row::Row;

/// The number of bounds that there were, and their rows.
#[derive(Drop)]
pub struct Mark {
    pub edges: usize,
    pub rows: Vec<Row>,
}
