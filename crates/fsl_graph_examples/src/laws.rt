//! That the definition of an execution says something, and that each part of it is needed. Each call does nothing; its
//! contract is the law.
ghost use Rattle.fsl_graph_examples.specs.Counted.{CountedIsExecution};
ghost use Rattle.fsl_graph_examples.specs.Alone.{EachAloneRefuses};
ghost use Rattle.fsl_graph_examples.specs.Taking.{TheoremApplies};

/// An execution with threads, release and acquire accesses and a read-modify-write is one, consistent, acyclic and safe.
pub fn executions()
    ensures { CountedIsExecution }
{}

/// Each thing that is asked of an execution refuses a graph that all others admit.
pub fn each_is_needed()
    ensures { EachAloneRefuses }
{}

/// A program that the rules accept has an execution of which the theorem on accepted programs speaks, and in it a
/// read-modify-write hands a cell over from one thread to another.
pub fn theorem_applies()
    ensures { TheoremApplies }
{}
