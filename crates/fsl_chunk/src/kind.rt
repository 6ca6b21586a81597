//! Kinds of chunks.
ghost use Rattle.std.specs.Prelude.{◌≡◌};
ghost use Rattle.fsl_core.specs.logic.Chunks.{same_rung};
ghost use Rattle.fsl_chunk.specs.Kind.{kind_of, rung_of, kind_number};
ghost use Rattle.fsl_chunk.specs.Numbers.{rung_number, list_number};

use fsl_core::{Chunk, Rung};

/// The kind of a chunk, without what it says.
#[derive(Clone, Copy, Debug, PartialEq, Eq)]
pub enum ChunkKind {
    Points,
    Init,
    Rel,
    Acq,
    RmwAcq,
    Tok,
    Auth,
}

impl ChunkKind {
    /// The kind of a chunk.
    pub fn of(chunk: &Chunk) -> ChunkKind
        ensures { result ≡ kind_of chunk.now }
    {
        match chunk {
            Chunk::Points { .. } => ChunkKind::Points,
            Chunk::Init { .. } => ChunkKind::Init,
            Chunk::Rel { .. } => ChunkKind::Rel,
            Chunk::Acq { .. } => ChunkKind::Acq,
            Chunk::RmwAcq { .. } => ChunkKind::RmwAcq,
            Chunk::Tok { .. } => ChunkKind::Tok,
            Chunk::Auth { .. } => ChunkKind::Auth,
        }
    }
}

/// The rung of a chunk: `Plain` for one without a rung.
pub fn rung_of(chunk: &Chunk) -> Rung
    ensures { result ≡ rung_of chunk.now }
{
    match chunk {
        Chunk::Points { rung, .. } | Chunk::Init { rung, .. } => *rung,
        Chunk::Rel { .. }
        | Chunk::Acq { .. }
        | Chunk::RmwAcq { .. }
        | Chunk::Tok { .. }
        | Chunk::Auth { .. } => Rung::Plain,
    }
}

fn kind_number(kind: ChunkKind) -> usize
    ensures { result ≡ kind_number kind }
{
    match kind {
        ChunkKind::Points => 0,
        ChunkKind::Init => 1,
        ChunkKind::Rel => 2,
        ChunkKind::Acq => 3,
        ChunkKind::RmwAcq => 4,
        ChunkKind::Tok => 5,
        ChunkKind::Auth => 6,
    }
}

fn rung_number(rung: Rung) -> usize
    ensures { result ≡ rung_number rung }
{
    match rung {
        Rung::Plain => 0,
        Rung::Up => 1,
        Rung::Down => 2,
        Rung::Msg => 3,
    }
}

/// Whether two rungs are the same.
#[tactic(auto, using(crate::proofs::HeapNumbers::rungs_same))]
pub fn same_rung(rung: Rung, other: Rung) -> bool
    ensures { result ≡ same_rung rung other }
{
    rung_number(rung) == rung_number(other)
}

/// Which of the heap's lists has the numbers of a kind and a rung.
pub fn list_number(kind: ChunkKind, rung: Rung) -> usize
    ensures { result ≡ list_number kind rung }
{
    4 * kind_number(kind) + rung_number(rung)
}
