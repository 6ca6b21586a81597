//! What histories come to. Each call does nothing; its contract is a family of laws.
ghost use Rattle.fsl_history.specs.Bounds.{ViewsBoundPositions};
ghost use Rattle.fsl_history.specs.Growth.{FirstGraphGoes, LocalMoveGoesOn, EventGoesOn};
ghost use Rattle.fsl_history.specs.Real.{MessagesAreReal, ViewsAreReal};
ghost use Rattle.fsl_history.specs.Shown.{HistoryIsConsistent};

/// Whatever steps were made, as long as each was allowed: the graph of a history is consistent and acyclic.
pub fn consistent()
    ensures { HistoryIsConsistent }
{}

/// The view that stands for a position has all that an event of the position reads and writes.
pub fn views_bound_positions()
    ensures { ViewsBoundPositions }
{}

/// What is seen of a location goes up to a message that is there.
pub fn views_are_real()
    ensures threads { ViewsAreReal }
    ensures messages { MessagesAreReal }
{}

/// One more move of a thread keeps an execution.
pub fn executions_go_on()
    ensures first { FirstGraphGoes }
    ensures local { LocalMoveGoesOn }
    ensures event { EventGoesOn }
{}
