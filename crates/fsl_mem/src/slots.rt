//! Intervals, and what stands on them.

/// The interval (from, to] of a message among those of its location.
#[derive(Clone, Copy, Debug, PartialEq, Eq)]
pub struct Gap {
    /// Where it begins; this number isn't in it.
    pub from: u64,
    /// Its last number, where the message ends.
    pub to: u64,
}

/// A message by its interval and its number.
#[derive(Clone, Copy, Debug, PartialEq, Eq)]
pub struct Slot {
    /// The interval of the message.
    pub gap: Gap,
    /// Messages are numbered from 0, in the order in which they were put.
    pub number: u32,
}

/// What a read may read: no message, which gives 0, or one by its number.
#[derive(Clone, Copy, Debug, PartialEq, Eq)]
pub enum Source {
    /// No message, which gives 0.
    Nothing,
    /// The message of a number.
    Message { number: u32 },
}
