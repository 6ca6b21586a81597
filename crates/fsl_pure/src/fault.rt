//! Why a fact could not be taken in.
ghost use Rattle.std.specs.Prelude.{◌≡◌};
ghost use Rattle.fsl_pure.specs.declared.fault.PureFault.TheVariants.{NoMemory};
ghost use Rattle.fsl_pure.specs.Faults.{of_lin};

use fsl_lin::LinFault;
use std::alloc::{AllocError, AllocFailed};

/// Why a fact or a symbol could not be taken in.
#[derive(Clone, Copy, Debug, PartialEq, Eq)]
pub enum PureFault {
    /// 512 symbols are there.
    Full,
    /// A number of a reduced equation, or of a kept bound in normal form, would pass its bound.
    Wide,
    NoMemory,
}

impl From<AllocError> for PureFault {
    ghost from_gives = { λ _ fault. fault ≡ NoMemory };

    fn from(_error: AllocError) -> PureFault {
        PureFault::NoMemory
    }
}

impl<T: Drop> From<AllocFailed<T>> for PureFault {
    ghost from_gives = { λ _ fault. fault ≡ NoMemory };

    fn from(_error: AllocFailed<T>) -> PureFault {
        PureFault::NoMemory
    }
}

impl From<LinFault> for PureFault {
    ghost from_gives = { λ error fault. fault ≡ of_lin error };

    fn from(error: LinFault) -> PureFault {
        match error {
            LinFault::Wide => PureFault::Wide,
            LinFault::NoMemory => PureFault::NoMemory,
        }
    }
}
