//! What holds of the rule of read-modify-writes. Each call does nothing; its contract is a family of laws.
ghost use Rattle.fsl_updated.specs.Laws.{ForgetFits, StepsFit, LeavesTell, ReplaceFits, ExchangeTells, ExchangeFits, AddTells, AddFits, CasTells, CasFits};

/// What was known of a message that was read before.
pub fn messages()
    ensures { ForgetFits }
{}

/// Token steps, one after the other.
pub fn steps()
    ensures { StepsFit }
{}

/// What is needed of a location, and that its value is read and replaced.
pub fn replacing()
    ensures leaves { LeavesTell }
    ensures replace { ReplaceFits }
{}

/// Exchange, fetch-and-add and compare-exchange.
pub fn updates()
    ensures exchange_tells { ExchangeTells }
    ensures exchange { ExchangeFits }
    ensures add_tells { AddTells }
    ensures add { AddFits }
    ensures cas_tells { CasTells }
    ensures cas { CasFits }
{}
