//! Places in a file.

/// A stretch of a file, by the numbers of its first byte and of the byte after its last, from 0 on.
#[derive(Clone, Copy, Debug, PartialEq, Eq)]
pub struct Span {
    pub from: u32,
    pub to: u32,
}
