//! Why a combination could not be made.
ghost use Rattle.std.specs.Prelude.{◌≡◌};
ghost use Rattle.fsl_lin.specs.declared.fault.LinFault.TheVariants.{NoMemory};

use std::alloc::{AllocError, AllocFailed};

/// Why a combination could not be made.
#[derive(Clone, Copy, Debug, PartialEq, Eq)]
pub enum LinFault {
    /// A coefficient of the true result is more than 2^24 in size, or its constant more than 2^90.
    Wide,
    NoMemory,
}

impl From<AllocError> for LinFault {
    ghost from_gives = { λ _ fault. fault ≡ NoMemory };

    fn from(_error: AllocError) -> LinFault {
        LinFault::NoMemory
    }
}

impl<T: Drop> From<AllocFailed<T>> for LinFault {
    ghost from_gives = { λ _ fault. fault ≡ NoMemory };

    fn from(_error: AllocFailed<T>) -> LinFault {
        LinFault::NoMemory
    }
}
