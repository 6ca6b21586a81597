//! Why bytes are no tokens.
ghost use Rattle.std.specs.Prelude.{◌≡◌};

use std::alloc::AllocError;
use thiserror::Error;

/// Why a file can't be cut into tokens. Each `at` is the number of a byte of the file, from 0 on.
#[derive(Clone, Copy, Debug, PartialEq, Eq, Error)]
pub enum LexFault {
    /// The file is no UTF-8; its longest prefix that is has `at` bytes.
    #[error("no text from byte {at} on")]
    NotText { at: u32 },
    /// The character at `at` begins no token.
    #[error("a character at byte {at} that begins no token")]
    BadChar { at: u32 },
    /// The number that begins at `at` is above 9223372036854775808.
    #[error("a number at byte {at} that is too large")]
    LongNumber { at: u32 },
    /// The name that begins at `at` has more than 64 bytes.
    #[error("a name at byte {at} that is too long")]
    LongName { at: u32 },
    /// There was no memory for the list of tokens.
    #[error("out of memory")]
    NoMemory,
}

impl From<AllocError> for LexFault {
    ghost use Rattle.fsl_token.specs.declared.fault.LexFault.{LexFault};

    ghost from_gives = { λ _ fault. fault ≡ LexFault.NoMemory };

    fn from(_: AllocError) -> LexFault {
        LexFault::NoMemory
    }
}
