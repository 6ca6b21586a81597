//! Messages.

use crate::slots::Gap;
use fsl_view::View;

/// What a write leaves: its location, interval and value, the number of its event, and the view that
/// readers may take over.
#[derive(Drop)]
pub struct Message {
    /// The location that was written.
    pub loc: i64,
    /// Its interval among the messages of the location.
    pub gap: Gap,
    /// What was written.
    pub value: i64,
    /// The event that wrote it, by its number.
    pub event: u32,
    /// What a reader that acquires may take over.
    pub view: View,
}

/// What became of a message that was put.
#[derive(Clone, Copy, Debug, PartialEq, Eq)]
pub enum PutAt {
    /// It has this number.
    Done { number: u32 },
    /// Its interval is empty or overlaps another of its location.
    Taken,
}
