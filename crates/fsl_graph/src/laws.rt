//! What the relations of a graph come to. Each call does nothing; its contract is a family of laws.
ghost use Rattle.fsl_graph.specs.Determined.{ConfigsDetermined, PurposesDetermined};
ghost use Rattle.fsl_graph.specs.Edges.{SbEdgesDecided, EdgesDecided};
ghost use Rattle.fsl_graph.specs.Ends.{JoinedEnded};
ghost use Rattle.fsl_graph.specs.Joining.{EarlyJoin};
ghost use Rattle.fsl_graph.specs.Keeping.{LabelsAreAsked, LabelsLead, JoinsWait, LocalKeepsChildren, WaitingJoins};
ghost use Rattle.fsl_graph.specs.Labels.{LabelsHaveModes};
ghost use Rattle.fsl_graph.specs.Lone.{LoneIsConsistent};
ghost use Rattle.fsl_graph.specs.Orders.{HbAlongEdges, ClosedUnderHb, PrefixesClosed, NextComes, OneUpdate, ForwardOrder, OrderedIsAcyclic};
ghost use Rattle.fsl_graph.specs.Reading.{ReadHasSource, ReadSeesLast, WriteIsLast, LastStays, OneLast};
ghost use Rattle.fsl_graph.specs.Refused.{EachIsRefused};
ghost use Rattle.fsl_graph.specs.Shapes.{ShapesPossible, MessagePassed, FencesPass, SequencePasses, ForkPasses, JoinPasses, BuffersApart, RelaxedRaces, CycleHasNoOrder};
ghost use Rattle.fsl_graph.specs.Threads.{NumbersAscend, AllAhead, EachNumberIsOne, OneEvent, OneWrite, OneAccess, OneKind, JoinsWaitForAll};

/// Happens-before goes along sequenced-before and reads-from, so that no part of an execution that is closed
/// under these is ever entered from outside; a source has one read-modify-write at most.
pub fn along_edges()
    ensures hb { HbAlongEdges }
    ensures closed { ClosedUnderHb }
    ensures prefixes { PrefixesClosed }
    ensures next { NextComes }
    ensures update { OneUpdate }
{}

/// Edges can be told by tests.
pub fn edge_tests()
    ensures sb { SbEdgesDecided }
    ensures edge { EdgesDecided }
{}

/// A consistent execution can be gone through event by event exactly where thread order and reads-from have no
/// cycle together.
pub fn forward_orders()
    ensures order { ForwardOrder }
    ensures acyclic { OrderedIsAcyclic }
{}

/// Where the writes of a location happened before a read, it reads the last of them.
pub fn reading()
    ensures source { ReadHasSource }
    ensures last { ReadSeesLast }
    ensures write { WriteIsLast }
    ensures stays { LastStays }
    ensures one { OneLast }
{}

/// What the example graphs order, and what they don't.
pub fn shapes()
    ensures possible { ShapesPossible }
    ensures message { MessagePassed }
    ensures fences { FencesPass }
    ensures sequence { SequencePasses }
    ensures fork { ForkPasses }
    ensures join { JoinPasses }
    ensures buffers { BuffersApart }
    ensures relaxed { RelaxedRaces }
    ensures cycle { CycleHasNoOrder }
{}

/// A Join waits for threads that have ended, and for all that its thread has started. A graph in which it doesn't is no
/// execution, though it is consistent; and it races.
pub fn joins()
    ensures ended { JoinedEnded }
    ensures all { JoinsWaitForAll }
    ensures early { EarlyJoin }
{}

/// What the moves of a thread keep to: what they show was asked for, and leads where it must.
pub fn moves()
    ensures asked { LabelsAreAsked }
    ensures lead { LabelsLead }
    ensures wait { JoinsWait }
    ensures local { LocalKeepsChildren }
    ensures waiting { WaitingJoins }
{}

/// The labels of a well-formed program have orders that are theirs.
pub fn labels()
    ensures { LabelsHaveModes }
{}

/// Where a thread stands before an event is a function of graph and event; what an allocation was made for is read
/// off it.
pub fn configurations()
    ensures configs { ConfigsDetermined }
    ensures purposes { PurposesDetermined }
{}

/// The events of a thread by their numbers, and what a number or a location has one of.
pub fn numbers()
    ensures ascend { NumbersAscend }
    ensures ahead { AllAhead }
    ensures each { EachNumberIsOne }
    ensures event { OneEvent }
    ensures write { OneWrite }
    ensures access { OneAccess }
    ensures kind { OneKind }
{}

/// A graph of one thread with non-atomic accesses, whose loads read the last store before them, is
/// consistent and acyclic.
pub fn one_thread()
    ensures { LoneIsConsistent }
{}

/// Each rule refuses a small graph that has one fault.
pub fn faults_are_refused()
    ensures { EachIsRefused }
{}
