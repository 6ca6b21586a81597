//! What a read-modify-write passes on and keeps. Each call does nothing; its contract is a family of laws.
ghost use Rattle.fsl_passed.specs.Laws.{AsrtPasses, PartsPass, KeepFits};

/// What is passed on from the message that was read to the one that is written.
pub fn passing()
    ensures asrt { AsrtPasses }
    ensures parts { PartsPass }
{}

/// What the thread keeps of the message that was read.
pub fn keeping()
    ensures { KeepFits }
{}
