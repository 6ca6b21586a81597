//! What holds of every assertion. Each call does nothing; its contract is a family of laws.
ghost use Rattle.fsl_asserted.specs.Carried.{AsksCarried, AsksStay};
ghost use Rattle.fsl_asserted.specs.Laws.{ExprIsRead, CondIsJudged, AsrtProduces, AsrtConsumes};

/// Expressions and conditions are read as what they are.
pub fn expressions()
    ensures term { ExprIsRead }
    ensures condition { CondIsJudged }
{}

/// The rules of an assertion keep to what it asks for.
pub fn assertions()
    ensures produced { AsrtProduces }
    ensures consumed { AsrtConsumes }
{}

/// What an assertion asks for, later and at another rung.
pub fn needs()
    ensures stay { AsksStay }
    ensures carried { AsksCarried }
{}
