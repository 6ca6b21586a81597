//! What holds of every rule. Each call does nothing; its contract is a family of laws.
ghost use Rattle.fsl_kept.specs.Laws.{SetFits, AssertFits, AllocFits, LoadFits, StoreFits, FreeFits, BankFits, StepFits, FenceFits, EnterFits, FinishFits, PreFits, ResultFits, PostFits, SetResultFits, RoundFits, InvFits, AtomicAllocFits, AtomicStoreFits, AtomicLoadFits, ArgsTell, StartsFit, JoinsFit};

/// Variables that are set, and conditions that are asserted.
pub fn variables()
    ensures set { SetFits }
    ensures asserted { AssertFits }
{}

/// Accesses to cells.
pub fn cells()
    ensures alloc { AllocFits }
    ensures load { LoadFits }
    ensures store { StoreFits }
    ensures free { FreeFits }
{}

/// Banks of tokens.
pub fn banks()
    ensures bank { BankFits }
    ensures step { StepFits }
{}

/// Fences, in every mode.
pub fn fences()
    ensures { FenceFits }
{}

/// The start and the end of a procedure, and the two sides of a call.
pub fn procedures()
    ensures enter { EnterFits }
    ensures finish { FinishFits }
    ensures pre { PreFits }
    ensures result { ResultFits }
    ensures post { PostFits }
    ensures set { SetResultFits }
{}

/// Rounds of a loop.
pub fn loops()
    ensures begins { RoundFits }
    ensures ends { InvFits }
{}

/// Accesses to atomic locations, in every mode.
pub fn atomics()
    ensures alloc { AtomicAllocFits }
    ensures store { AtomicStoreFits }
    ensures load { AtomicLoadFits }
{}

/// Threads that run side by side: their arguments, their start, and that they are joined.
pub fn threads()
    ensures args { ArgsTell }
    ensures starts { StartsFit }
    ensures joins { JoinsFit }
{}
