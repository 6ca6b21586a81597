//! What pieces are to worlds. The call does nothing; its contract is a family of laws.
ghost use Rattle.fsl_good.specs.Laws.{FitsEntailed, FitsPossible, PiecesStay};

/// Pieces that fit a world entail others that do, are possible together, and stay right.
pub fn pieces()
    ensures entailed { FitsEntailed }
    ensures possible { FitsPossible }
    ensures stay { PiecesStay }
{}
