//! One location of a view.

/// What is seen at a location: the messages there up to `to`.
#[derive(Clone, Copy, Debug, PartialEq, Eq)]
pub struct Entry {
    /// The location, any number.
    pub loc: i64,
    /// Where its last message ends that is seen.
    pub to: u64,
}
