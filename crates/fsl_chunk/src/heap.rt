//! The chunks of a path in their order, with lists of their numbers by kind and rung. Copies share the chunks.
ghost use Rattle.std.specs.Prelude.{◌≡◌, ◌<◌, ◌≤◌, ◌++◌, ◌∷◌, [], false, Some, length, remove, slice_get, slice_set, IfOk, IfSome, OnOk, OnErr, IsErrOf};
ghost use Rattle.std.specs.Option.{option_map};
ghost use Rattle.fsl_lin.specs.Facts.{absurd_facts};
ghost use Rattle.fsl_chunk.specs.Kind.{kind_of, rung_of, numbers_of};
ghost use Rattle.fsl_chunk.specs.Fits.{sought};

use crate::fault::HeapFault;
use crate::fits::{fits, kind_sought, rung_sought};
use crate::kind::{ChunkKind, list_number, rung_of};
use crate::numbers::Numbers;
use crate::want::Want;
use fsl_core::{Chunk, Rung};
use fsl_pure::{Pure, Shared, push, share_each};
use std::alloc::{AllocError, Global};
use std::marker::Model;

/// The most chunks of a path.
const MAX_CHUNKS: usize = 512;

/// The chunks of a path, the oldest first: at most 512.
#[derive(Drop)]
pub struct Heap {
    chunks: Vec<Shared<Chunk>>,
    numbers: Numbers,
}

impl Model for Heap {
    ghost use Rattle.std.specs.Prelude.{List as Seq};
    ghost use Rattle.fsl_core.specs.declared.chunk.Chunk as declared;
    ghost use Rattle.fsl_chunk.specs.Numbers.{IsIndexed};

    ghost Value = { Seq declared.Chunk };

    ghost view = { λ heap. heap.chunks.items };

    ghost invariant = { λ heap. IsIndexed heap.chunks.items heap.numbers };
}

impl Heap {
    /// No chunks.
    pub fn new(alloc: Global) -> Result<Heap, AllocError>
        ensures { IfOk result (λ heap. heap ≡ []) }
    {
        Ok(Heap {
            chunks: Vec::new(alloc),
            numbers: Numbers::new(alloc)?,
        })
    }

    /// How many chunks there are.
    pub fn len(&self) -> u32
        ensures count { result ≡ length self.now }
        ensures few { length self.now ≤ 512 }
    {
        self.chunks.len() as u32
    }

    /// A chunk by its number, counted from 0.
    pub fn at(&self, number: u32) -> &Chunk
        requires { number < length self.now }
        ensures { slice_get self.now number ≡ Some result.now }
    {
        self.chunks[number as usize].get()
    }

    /// The numbers of the chunks of a kind and a rung, ascending. Those without a rung stand at `Plain`. It takes
    /// no memory.
    pub fn numbers_of(&self, kind: ChunkKind, rung: Rung) -> &[u32]
        ensures { result.now ≡ numbers_of kind rung self.now }
    {
        self.numbers.list(list_number(kind, rung))
    }

    /// The number of the first chunk that fits. It takes no memory.
    pub fn find(&self, pure: &Pure, want: &Want<'_, '_>) -> Option<u32>
        requires { absurd_facts pure.now.facts ≡ false }
        ensures first { result ≡ sought want.now pure.now.facts self.now }
        ensures within { IfSome result (λ number. number < length self.now) }
    {
        for number in self.numbers_of(kind_sought(want), rung_sought(want)) {
            if fits(pure, want, self.at(*number)) {
                return Some(*number);
            }
        }
        None
    }

    /// Adds a chunk at the end. `Full` comes exactly where it would be the 513th. On a fault nothing changes.
    pub fn add(&mut self, alloc: Global, chunk: Chunk) -> Result<(), HeapFault>
        ensures added { OnOk result (self.new ≡ self.old ++ chunk ∷ []) }
        ensures room { OnOk result (length self.old < 512) }
        ensures kept { OnErr result (self.new ≡ self.old) }
        ensures full { IsErrOf result HeapFault.Full → length self.old ≡ 512 }
        ensures no_memory { IsErrOf result HeapFault.NoMemory → length self.old < 512 }
    {
        let number = self.chunks.len();
        if number == MAX_CHUNKS {
            return Err(HeapFault::Full);
        }
        let list = list_number(ChunkKind::of(&chunk), rung_of(&chunk));
        let chunk = Shared::new(alloc, chunk)?;
        self.chunks.reserve(1)?;
        self.numbers.push(list, number as u32)?;
        push(&mut self.chunks, chunk);
        Ok(())
    }

    /// Takes a chunk out; the others keep their order. It takes no memory.
    pub fn remove(&mut self, number: u32) -> Shared<Chunk>
        requires { number < length self.old }
        ensures chunk { slice_get self.old number ≡ Some result }
        ensures rest { self.new ≡ remove self.old number }
    {
        self.numbers.forget(number);
        self.chunks.remove(number as usize)
    }

    /// Puts another chunk of the same kind and rung in the place of one. For want of memory nothing changes.
    pub fn replace(&mut self, alloc: Global, number: u32, by: Chunk) -> Result<(), AllocError>
        requires same_kind { option_map kind_of (slice_get self.old number) ≡ Some (kind_of by) }
        requires same_rung { option_map rung_of (slice_get self.old number) ≡ Some (rung_of by) }
        ensures replaced { OnOk result (self.new ≡ slice_set self.old number by) }
        ensures kept { OnErr result (self.new ≡ self.old) }
    {
        let by = Shared::new(alloc, by)?;
        self.chunks[number as usize] = by;
        Ok(())
    }

    /// The same chunks, none copied.
    pub fn fork(&self, alloc: Global) -> Result<Heap, AllocError>
        ensures { IfOk result (λ heap. heap ≡ self.now) }
    {
        Ok(Heap {
            chunks: share_each(alloc, self.chunks.as_slice())?,
            numbers: self.numbers.copy(alloc)?,
        })
    }
}
