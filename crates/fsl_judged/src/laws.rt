//! The rules at work: the verdicts that they give on small programs. Each call does nothing; its contract is the law.
ghost use Rattle.fsl_judged.specs.JudgedCells.{CellsAreJudged};
ghost use Rattle.fsl_judged.specs.JudgedFences.{FencesAreJudged};
ghost use Rattle.fsl_judged.specs.JudgedMessages.{MessagesAreJudged};
ghost use Rattle.fsl_judged.specs.JudgedUpdates.{UpdatesAreJudged};

/// Programs over non-atomic cells, and what becomes of each.
pub fn cells_are_judged()
    ensures { CellsAreJudged }
{}

/// Programs with release stores and acquire loads, and what becomes of each.
pub fn messages_are_judged()
    ensures { MessagesAreJudged }
{}

/// Programs with relaxed accesses and fences, and what becomes of each.
pub fn fences_are_judged()
    ensures { FencesAreJudged }
{}

/// Programs with read-modify-writes and counting tokens, and what becomes of each.
pub fn updates_are_judged()
    ensures { UpdatesAreJudged }
{}
