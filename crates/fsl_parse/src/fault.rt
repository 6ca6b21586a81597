//! Why tokens are no file.
ghost use Rattle.std.specs.Prelude.{◌≡◌};

use fsl_base::Span;
use std::alloc::AllocFailed;
use thiserror::Error;

/// Why tokens are no file.
#[derive(Clone, Copy, Debug, PartialEq, Eq, Error)]
pub enum ParseFault {
    /// The token at `place`, or the end of the file, is none that may stand there.
    #[error("an unexpected token at byte {}", place.from)]
    Unexpected { place: Span },
    /// The token at `place` makes the nesting 65.
    #[error("nested too deeply at byte {}", place.from)]
    Deep { place: Span },
    /// There was no memory for the tree.
    #[error("out of memory")]
    NoMemory,
}
