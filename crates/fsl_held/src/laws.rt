//! What a thread has, read as a heap. Each call does nothing; its contract is a family of laws.
ghost use Rattle.fsl_held.specs.Laws.{HeapIsBounded, HeapIsCut, CellIsTaken, CellIsRead, FrontIsKept, AskedIsKept, NeedIsParted, FrontSatisfies};

/// What is possible is no more than there is.
pub fn heaps()
    ensures { HeapIsBounded }
{}

/// Any part of what a thread has can be taken out of its pieces.
pub fn cuts()
    ensures { HeapIsCut }
{}

/// Who has all shares of a cell can take them out, and who has one knows the value that is said of it.
pub fn cells()
    ensures taken { CellIsTaken }
    ensures read { CellIsRead }
{}

/// Pieces in front of others say what they said, and so do those behind.
pub fn fronts()
    ensures { FrontIsKept }
{}

/// What an assertion asks for stays where it is kept, can be taken out, and can be put in front of others.
pub fn assertions()
    ensures kept { AskedIsKept }
    ensures parted { NeedIsParted }
    ensures front { FrontSatisfies }
{}
