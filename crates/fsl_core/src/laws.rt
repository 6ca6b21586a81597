//! What every program keeps. Each call does nothing; its contract is the law.
ghost use Rattle.std.specs.Prelude.{IsTrue};
ghost use Rattle.fsl_core.specs.Seen.{ExpressionsAreSeen, ConditionsAreSeen, ArgumentsAreSeen};
ghost use Rattle.fsl_core.specs.WellFormed.{is_well_formed};

use crate::program::Program;

/// Every program is well formed.
pub fn programs_are_well_formed(p: &Program)
    ensures { IsTrue (is_well_formed p.now) }
{
    p.kept()
}

/// Where two environments agree on the numbers that are visible, what reads these alone has one value: expressions,
/// conditions, and arguments against their parameters.
pub fn what_is_seen_decides()
    ensures expressions { ExpressionsAreSeen }
    ensures conditions { ConditionsAreSeen }
    ensures arguments { ArgumentsAreSeen }
{}
