//! The location that a chunk is leave to write.
ghost use Rattle.std.specs.Prelude.{◌≡◌, IfOk};
ghost use Rattle.std.specs.Option.{option_map};
ghost use Rattle.fsl_core.specs.logic.Chunks.{first, rel_at};
ghost use Rattle.fsl_chunk.specs.Fits.{leave_of};
ghost use Rattle.fsl_access.specs.Location.{rel_in, what_is};

use fsl_base::TryClone;
use fsl_chunk::{Leave, State, Want};
use fsl_core::Chunk;
use fsl_lin::Lin;
use std::alloc::{AllocError, Global};

/// The location that a chunk is leave to write, if it is such leave.
fn written_by(alloc: Global, chunk: &Chunk) -> Result<Option<Leave>, AllocError>
    ensures { IfOk result (λ l. option_map leave_of l ≡ rel_in chunk.now) }
{
    match chunk {
        Chunk::Rel { at, inv, args } => {
            let at = at.try_clone(alloc)?;
            let args = args.try_clone(alloc)?;
            Ok(Some(Leave {
                at,
                inv: *inv,
                args,
            }))
        }
        _ => Ok(None),
    }
}

/// The location of the first leave to write at an address, if there is one.
pub fn writable_at(alloc: Global, state: &State, at: &Lin) -> Result<Option<Leave>, AllocError>
    ensures { IfOk result (λ l. option_map leave_of l ≡ what_is (first (rel_at at.now state.now.facts) state.now.chunks)) }
{
    match state.find(&Want::Rel { at }) {
        Some(number) => written_by(alloc, state.heap().at(number)),
        None => Ok(None),
    }
}
