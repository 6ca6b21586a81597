//! What one move with an event has done.
use fsl_graph::Event;

/// An event, with the interval (low, to] of the message that it left; both ends are 0 where it wrote nothing.
#[derive(Drop)]
pub struct Did {
    /// What was done.
    pub event: Event,
    /// Where the interval begins; this number isn't in it.
    pub low: u64,
    /// The last number of the interval, by which messages of one location are ordered.
    pub to: u64,
}
