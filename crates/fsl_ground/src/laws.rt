//! What keeps an execution safe as it goes on, and what its reads read. Each call does nothing; its contract is a
//! family of laws.
ghost use Rattle.fsl_ground.specs.Laws.{SafeNext, QuietIsSafe, InitIsRead, UpdateTakes, ReadIsFree};

/// A next event that keeps to what it must is safe.
pub fn safety()
    ensures next { SafeNext }
    ensures quiet { QuietIsSafe }
{}

/// A read of a location that was written reads a message that is there, and a read-modify-write one that none has
/// read, of which nothing is due then.
pub fn sources()
    ensures read { InitIsRead }
    ensures takes { UpdateTakes }
    ensures free { ReadIsFree }
{}
