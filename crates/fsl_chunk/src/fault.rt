//! Why a chunk could not be added.
ghost use Rattle.std.specs.Prelude.{◌≡◌};
ghost use Rattle.fsl_chunk.specs.declared.fault.HeapFault.TheVariants.{NoMemory};

use std::alloc::{AllocError, AllocFailed};

/// Why a chunk could not be added.
#[derive(Clone, Copy, Debug, PartialEq, Eq)]
pub enum HeapFault {
    /// 512 chunks are there.
    Full,
    NoMemory,
}

impl From<AllocError> for HeapFault {
    ghost from_gives = { λ _ fault. fault ≡ NoMemory };

    fn from(_error: AllocError) -> HeapFault {
        HeapFault::NoMemory
    }
}

impl<T: Drop> From<AllocFailed<T>> for HeapFault {
    ghost from_gives = { λ _ fault. fault ≡ NoMemory };

    fn from(_error: AllocFailed<T>) -> HeapFault {
        HeapFault::NoMemory
    }
}
