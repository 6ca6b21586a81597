//! How positions grow from event to event, and that who owns what stays in order. Each call does nothing; its contract is a family of laws.
ghost use Rattle.fsl_own.specs.Knowledge.{PositionsGrow, MessagesStay, KnownBefore, OwnEventKnown, KnownRacesNot, KnownIsDone, ForkTells, JoinTells, AwaitTells, ReleaseWriteTells, AtomicWriteTells, UpdateTells, ReleaseFenceTells, AcquireFenceTells, AcquiringReadTells, AtomicReadTells};
ghost use Rattle.fsl_own.specs.Atoms.{StillHeld};
ghost use Rattle.fsl_own.specs.Kept.{AtMost, TwoAtMost, HoldsAlone, KeptByGiving, KeptByJoining, KeptByGaining, KeptByLosing, KeptByKnowing, ChangeIsAfter, UseIsAfter, KeptByEvent, KeptByFree};
ghost use Rattle.fsl_own.specs.Reading.{KnownIsRead, KnownIsOverwritten};

/// What a thread knows of happened before its next event, so that this event races with none of it.
pub fn known_before()
    ensures known { KnownBefore }
    ensures own { OwnEventKnown }
    ensures race { KnownRacesNot }
    ensures done { KnownIsDone }
{}

/// No event takes knowledge away.
pub fn growth()
    ensures grow { PositionsGrow }
    ensures stay { MessagesStay }
{}

/// Starting and joining threads.
pub fn threads()
    ensures fork { ForkTells }
    ensures join { JoinTells }
    ensures waits { AwaitTells }
{}

/// Atomic writes, and read-modify-writes in so far as they write.
pub fn writes()
    ensures release { ReleaseWriteTells }
    ensures atomic { AtomicWriteTells }
    ensures update { UpdateTells }
{}

/// Atomic reads, and read-modify-writes in so far as they read.
pub fn reads()
    ensures acquiring { AcquiringReadTells }
    ensures atomic { AtomicReadTells }
{}

/// Release and acquire fences.
pub fn fences()
    ensures release { ReleaseFenceTells }
    ensures acquire { AcquireFenceTells }
{}

/// A thread that knows of all writes of a location reads the last of them, and overwrites it.
pub fn reading()
    ensures read { KnownIsRead }
    ensures write { KnownIsOverwritten }
{}

/// No world has more than there is, and who has all of something has it alone.
pub fn amounts()
    ensures most { AtMost }
    ensures two { TwoAtMost }
    ensures alone { HoldsAlone }
{}

/// What keeps a world in order while nothing is done: gifts, gains and losses, and what becomes known.
pub fn changes()
    ensures giving { KeptByGiving }
    ensures joining { KeptByJoining }
    ensures gaining { KeptByGaining }
    ensures losing { KeptByLosing }
    ensures knowing { KeptByKnowing }
{}

/// An event of a thread that owns what it uses keeps a world in order, and comes after what it has to come after.
pub fn events()
    ensures change { ChangeIsAfter }
    ensures used { UseIsAfter }
    ensures event { KeptByEvent }
    ensures free { KeptByFree }
{}

/// What a holder has stays right.
pub fn atoms()
    ensures { StillHeld }
{}
