//! Why no program was read, and the answer then.
ghost use Rattle.std.specs.Prelude.{◌≡◌, ◌≤◌, Some, IfOk};
ghost use Rattle.fsl_commands.specs.Unread.{refusal, size_of};

use crate::answer::{Answer, fixed};
use crate::status::Status;
use fsl_base::List;
use fsl_report::{Refused, refused_text};
use std::alloc::{AllocError, Global};

/// The file could not be read.
const READ_FAULT: &str = "read fault\n";

/// Why no program was read.
#[derive(Drop)]
pub enum Unread {
    /// The file can't be read, or isn't there.
    Read,
    /// What the file has is refused; of too many bytes none are kept.
    Refused { bytes: List<u8>, why: Refused },
    /// There was no memory.
    NoMemory,
}

/// The answer where no program was read: `read fault` with status 4, or the text of the refusal with status 3. An
/// error is want of memory.
pub(crate) fn refused(alloc: Global, unread: &Unread) -> Result<Answer, AllocError>
    requires { size_of unread.now ≤ 1048576 }
    ensures { IfOk result (λ a. refusal unread.now ≡ Some a) }
{
    match unread {
        Unread::Read => fixed(alloc, 4, READ_FAULT),
        Unread::Refused { bytes, why } => Ok(Answer {
            status: Status(3),
            text: refused_text(alloc, bytes.as_slice(), *why)?,
        }),
        Unread::NoMemory => Err(AllocError),
    }
}
