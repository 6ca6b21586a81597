//! An answer: a text and the status that goes with it. It is composed first, and then pushed once.
ghost use Rattle.std.specs.Prelude.{◌≡◌, IfOk};
ghost use Rattle.fsl_commands.specs.Answer.{IsWritten, answer};
ghost use Rattle.fsl_commands.specs.Changes.{writing};

use crate::status::Status;
use fsl_base::{Sink, Text};
use std::alloc::{AllocError, Global};

/// A text with its status.
#[derive(Drop)]
pub struct Answer {
    pub status: Status,
    pub text: Text,
}

/// An answer with a fixed text.
pub(crate) fn fixed(alloc: Global, status: u8, text: &str) -> Result<Answer, AllocError>
    ensures { IfOk result (λ a. a ≡ answer status text.now) }
{
    Ok(Answer {
        status: Status(status),
        text: Text::from_str(alloc, text)?,
    })
}

/// Writes an answer and gives its status, or status 5 where only a first part was written.
pub(crate) fn say<K: Sink>(sink: &mut K, answer: &Answer) -> Status
    ensures { IsWritten answer.now (writing K.Sink sink.old sink.new) result }
{
    match sink.push(answer.text.as_str().as_bytes()) {
        Ok(()) => answer.status,
        Err(_) => Status(5),
    }
}
