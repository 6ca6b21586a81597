//! How the walk stands to paths. The call does nothing; its contract is the law.
ghost use Rattle.fsl_walk.specs.Laws.{SeesAreSame};

/// What code sees in a scope is the same after a variable was set on both sides.
pub fn variables()
    ensures { SeesAreSame }
{}
