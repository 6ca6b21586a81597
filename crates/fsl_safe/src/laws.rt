//! What is so of a thread's next event. The call does nothing; its contract is a family of laws.
ghost use Rattle.fsl_safe.specs.Laws.{EventBegun, NextUnawaited, FirstAhead};

/// The thread whose event comes next was started, nobody has waited for it, and the event is the first of those that
/// it has ahead.
pub fn next_event()
    ensures begun { EventBegun }
    ensures unawaited { NextUnawaited }
    ensures first { FirstAhead }
{}
