//! What the verdict of the rules promises. Each call does nothing; its contract is the law.
ghost use Rattle.fsl_derived.specs.Laws.{AcceptedAreSafe};
ghost use Rattle.fsl_derived.specs.Examples.{ExamplesAreSafe};

/// An accepted program does nothing unsafe in any consistent execution without a cycle.
pub fn accepted_is_safe()
    ensures { AcceptedAreSafe }
{}

/// There are such programs: one that makes, stores and loads a cell, and one of two threads that do so side by side.
pub fn examples_are_safe()
    ensures { ExamplesAreSafe }
{}
