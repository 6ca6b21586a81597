//! What holds in every scope. Each call does nothing; its contract is a family of laws.
ghost use Rattle.fsl_scoped.specs.Arguments.{ArgumentsAreExact, StartsAreSeen};
ghost use Rattle.fsl_scoped.specs.Assertions.{AssertionsAreSeen, BindersAreFree};
ghost use Rattle.fsl_scoped.specs.Own.{BlocksSetTheirOwn, LocalsAreDeclared};
ghost use Rattle.fsl_scoped.specs.Procedures.{BodiesKeepContracts, BodiesAreDeclared, ContractsAreOutside, EnsuresAreSeen, EnsuresNeedNoResult, EnsuresMindNoResult};
ghost use Rattle.fsl_scoped.specs.Statements.{StatementsAreScoped, BranchesFit, LoopsFit, SightsStay, FlagsStay};
ghost use Rattle.fsl_scoped.specs.Values.{ValuesAreExact, ConditionsAreExact, ReadsAreExact, TestsAreExact};

/// A run's values are the numbers of a path.
pub fn values()
    ensures values { ValuesAreExact }
    ensures conditions { ConditionsAreExact }
    ensures reads { ReadsAreExact }
    ensures tests { TestsAreExact }
{}

/// What assertions see, and what they set.
pub fn assertions()
    ensures seen { AssertionsAreSeen }
    ensures binders { BindersAreFree }
{}

/// What statements set, and what is seen behind them.
pub fn statements()
    ensures level { StatementsAreScoped }
    ensures branches { BranchesFit }
    ensures loops { LoopsFit }
    ensures own { BlocksSetTheirOwn }
    ensures declared { LocalsAreDeclared }
    ensures sights { SightsStay }
    ensures flags { FlagsStay }
{}

/// What bodies keep of their contracts.
pub fn bodies()
    ensures contracts { BodiesKeepContracts }
    ensures declared { BodiesAreDeclared }
    ensures outside { ContractsAreOutside }
{}

/// What is passed to a procedure, and what its code reads of it.
pub fn arguments()
    ensures exact { ArgumentsAreExact }
    ensures starts { StartsAreSeen }
{}

/// What is seen where a procedure ends.
pub fn ends()
    ensures seen { EnsuresAreSeen }
    ensures without { EnsuresNeedNoResult }
    ensures with { EnsuresMindNoResult }
{}
