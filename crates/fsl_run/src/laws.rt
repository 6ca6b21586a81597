//! What the causes of ends come to. The call does nothing; its contract is a family of laws.
ghost use Rattle.fsl_run.specs.Laws.{HasOneEnd, StandsInOneWay};

/// A graph of a program says how each of its threads stands after it, and the causes of two different ends never
/// come together, so each end comes exactly where its cause is.
pub fn one_end()
    ensures stands { StandsInOneWay }
    ensures ends { HasOneEnd }
{}
