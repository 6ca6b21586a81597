//! What holds of states that fit. Each call does nothing; its contract is a family of laws.
ghost use Rattle.fsl_lin.specs.Solver.{IsSound};
ghost use Rattle.fsl_meaning.specs.Laws.{MeansLater, MeansPlus, MeansMinus, MeansTimes, MeansConstant, MeansSymbol, FactLands, SymbolLands, DecisionLands, AssumedLands, DemandTells, ChunkJoins, ChunksJoin, FitsKept};

/// The definitions by which facts prove something are sound.
pub fn solver()
    ensures { IsSound }
{}

/// What terms mean, here and at later places of a path.
pub fn terms()
    ensures later { MeansLater }
    ensures plus { MeansPlus }
    ensures minus { MeansMinus }
    ensures times { MeansTimes }
    ensures constant { MeansConstant }
    ensures symbol { MeansSymbol }
{}

/// What may be assumed without losing the branch that is the case.
pub fn facts()
    ensures fact { FactLands }
    ensures symbol { SymbolLands }
{}

/// Conditions: decided, assumed, and proved.
pub fn conditions()
    ensures decision { DecisionLands }
    ensures assumed { AssumedLands }
    ensures demand { DemandTells }
{}

/// Chunks that join the others, and chunks that stay what they are.
pub fn chunks()
    ensures joins { ChunkJoins }
    ensures all { ChunksJoin }
    ensures kept { FitsKept }
{}
