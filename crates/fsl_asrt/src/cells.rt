//! Cells among the chunks of a path.
ghost use Rattle.std.specs.Prelude.{◌≡◌, IfOk, IfSome};
ghost use Rattle.std.specs.Option.{option_map};
ghost use Rattle.fsl_core.specs.logic.Chunks.{first, cell_at, enough_at};
ghost use Rattle.fsl_asrt.specs.Cells.{IsFoundBy, cell_of, cell_in};

use fsl_base::TryClone;
use fsl_chunk::{State, Want};
use fsl_core::{Chunk, Rung};
use fsl_lin::Lin;
use std::alloc::{AllocError, Global};

/// A share of a cell, with the number of its chunk.
#[derive(Drop)]
pub struct FoundCell {
    pub number: u32,
    pub at: Lin,
    pub share: Lin,
    pub value: Option<Lin>,
}

/// A value, where it is known.
fn copied(alloc: Global, value: &Option<Lin>) -> Result<Option<Lin>, AllocError>
    ensures { IfOk result (λ copy. copy ≡ value.now) }
{
    match value {
        Some(t) => Ok(Some(t.try_clone(alloc)?)),
        None => Ok(None),
    }
}

/// The cell that a chunk of this number is, if it is one.
pub fn cell(alloc: Global, chunk: &Chunk, number: u32) -> Result<Option<FoundCell>, AllocError>
    ensures cell { IfOk result (λ c. option_map cell_of c ≡ cell_in chunk.now) }
    ensures number { IfOk result (λ c. IfSome c (λ c. c.number ≡ number)) }
{
    match chunk {
        Chunk::Points {
            at,
            share,
            value,
            ..
        } => {
            let at = at.try_clone(alloc)?;
            let share = share.try_clone(alloc)?;
            let value = copied(alloc, value)?;
            Ok(Some(FoundCell {
                number,
                at,
                share,
                value,
            }))
        }
        _ => Ok(None),
    }
}

/// The first chunk of a cell, if there is one.
pub fn cell_at(
    alloc: Global,
    state: &State,
    rung: Rung,
    at: &Lin,
) -> Result<Option<FoundCell>, AllocError>
    ensures { IfOk result (IsFoundBy rung state.now.chunks (first (cell_at rung at.now state.now.facts) state.now.chunks)) }
{
    match state.find(&Want::Points { rung, at }) {
        Some(number) => cell(alloc, state.heap().at(number), number),
        None => Ok(None),
    }
}

/// The first chunk of a cell with at least this share, if there is one.
pub fn enough_at(
    alloc: Global,
    state: &State,
    rung: Rung,
    at: &Lin,
    share: &Lin,
) -> Result<Option<FoundCell>, AllocError>
    ensures { IfOk result (IsFoundBy rung state.now.chunks (first (enough_at rung at.now share.now state.now.facts) state.now.chunks)) }
{
    match state.find(&Want::Enough { rung, at, share }) {
        Some(number) => cell(alloc, state.heap().at(number), number),
        None => Ok(None),
    }
}
