//! Tokens of a bank, and the authority over it, among the chunks of a path.
ghost use Rattle.std.specs.Prelude.{◌≡◌, Some, IfOk, IfSome};
ghost use Rattle.std.specs.Option.{option_map};
ghost use Rattle.fsl_core.specs.logic.Chunks.{first, tokens_of, authority_of};
ghost use Rattle.fsl_chunk.specs.declared.kind.ChunkKind.TheVariants.{Tok, Auth};
ghost use Rattle.fsl_asrt.specs.Counts.{IsCountedBy, count_of, counted_in};

use fsl_base::TryClone;
use fsl_chunk::{State, Want};
use fsl_core::Chunk;
use fsl_lin::Lin;
use std::alloc::{AllocError, Global};

/// A number of tokens of a bank, or of those that there may be, with the number of its chunk.
#[derive(Drop)]
pub struct FoundCount {
    pub number: u32,
    pub bank: Lin,
    pub n: Lin,
}

/// What a chunk of this number counts, if it counts.
fn count(alloc: Global, chunk: &Chunk, number: u32) -> Result<Option<FoundCount>, AllocError>
    ensures count { IfOk result (λ c. option_map count_of c ≡ counted_in chunk.now) }
    ensures number { IfOk result (λ c. IfSome c (λ c. c.number ≡ number)) }
{
    match chunk {
        Chunk::Tok { bank, n } => counted(alloc, number, bank, n),
        Chunk::Auth { bank, n } => counted(alloc, number, bank, n),
        _ => Ok(None),
    }
}

/// A count of a bank.
fn counted(
    alloc: Global,
    number: u32,
    bank: &Lin,
    n: &Lin,
) -> Result<Option<FoundCount>, AllocError>
    ensures { IfOk result (λ c. c ≡ Some (record { number = number; bank = bank.now; n = n.now })) }
{
    let bank = bank.try_clone(alloc)?;
    let n = n.try_clone(alloc)?;
    Ok(Some(FoundCount { number, bank, n }))
}

/// The first tokens of a bank, if there are any.
pub fn tokens_of(alloc: Global, state: &State, bank: &Lin) -> Result<Option<FoundCount>, AllocError>
    ensures { IfOk result (IsCountedBy Tok state.now.chunks (first (tokens_of bank.now state.now.facts) state.now.chunks)) }
{
    match state.find(&Want::Tok { bank }) {
        Some(number) => count(alloc, state.heap().at(number), number),
        None => Ok(None),
    }
}

/// The authority over a bank, if it is there.
pub fn authority_of(
    alloc: Global,
    state: &State,
    bank: &Lin,
) -> Result<Option<FoundCount>, AllocError>
    ensures { IfOk result (IsCountedBy Auth state.now.chunks (first (authority_of bank.now state.now.facts) state.now.chunks)) }
{
    match state.find(&Want::Auth { bank }) {
        Some(number) => count(alloc, state.heap().at(number), number),
        None => Ok(None),
    }
}
