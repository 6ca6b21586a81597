//! Events: what a thread showed in one move.

use fsl_core::Label;

/// A move of a thread that wasn't local.
#[derive(Drop)]
pub struct Event {
    /// The thread that moved, by its number.
    pub thread: u32,
    pub label: Label,
    /// The event whose write was read, by its number; `None` where nothing was read, or a location
    /// without a write.
    pub from: Option<u32>,
}
