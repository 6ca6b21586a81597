//! Why reading stops.
ghost use Rattle.std.specs.Prelude.{◌≡◌};
ghost use Rattle.fsl_grammar.specs.declared.fault.Fault.TheVariants.{NoMemory};

use std::alloc::AllocError;

/// Why the reading of a part stopped; the token at fault is the first that is left.
#[derive(Clone, Copy)]
pub enum Fault {
    /// No tree goes on with the token, or tokens lack.
    Unexpected,
    /// There is no room for the level that the token begins.
    Deep,
    /// There was no memory for the tree.
    NoMemory,
}

impl From<AllocError> for Fault {
    ghost from_gives = { λ _ fault. fault ≡ NoMemory };

    fn from(_error: AllocError) -> Fault {
        Fault::NoMemory
    }
}
