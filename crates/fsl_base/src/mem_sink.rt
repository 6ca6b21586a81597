//! A sink in memory, some of whose calls are cut short as a list says: what tests write to.
ghost use Rattle.std.specs.Prelude.{◌≡◌, ◌≤◌, ◌-◌, ◌++◌, [], None, Some, length, take, vec_len, vec_capacity, IfOk, IfErr, OnOk, OnErr, MatchResult, is_ok, if◌then◌else◌, ◌+◌};
ghost use Rattle.fsl_base.specs.Cuts.{cut_of, cut_short, next_cut};
ghost use Rattle.fsl_base.specs.Outside.{raised, Rose};

use crate::list::List;
use crate::outside::{Sink, Taken};
use std::alloc::{AllocError, Global};

/// A push that fails: its number, counted from 1 on, and how many bytes it takes at most.
#[derive(Clone, Copy, Debug, PartialEq, Eq)]
pub struct Cut {
    pub call: u32,
    pub bytes: u32,
}

/// A sink in memory with a fixed room. A push takes no memory.
#[derive(Debug, Drop)]
pub struct MemSink {
    bytes: Vec<u8>,
    room: u32,
    failing: List<Cut>,
    calls: u64,
    faults: u64,
    pub ghost within: { vec_len bytes ≤ room },
    pub ghost reserved: { room ≤ vec_capacity bytes },
}

impl MemSink {
    /// A sink for at most `room` bytes. The pushes that `failing` lists fail; of two entries for one
    /// push the first counts.
    pub fn new(alloc: Global, room: u32, failing: List<Cut>) -> Result<MemSink, AllocError>
        ensures bytes { IfOk result (λ sink. sink.bytes.items ≡ []) }
        ensures room { IfOk result (λ sink. sink.room ≡ room) }
        ensures failing { IfOk result (λ sink. sink.failing ≡ failing) }
        ensures calls { IfOk result (λ sink. sink.calls ≡ 0) }
        ensures faults { IfOk result (λ sink. sink.faults ≡ 0) }
    {
        Ok(MemSink {
            bytes: Vec::with_capacity(alloc, room as usize)?,
            room,
            failing,
            calls: 0,
            faults: 0,
        })
    }

    /// What was written. It takes no memory.
    pub fn written(&self) -> &[u8]
        ensures { result.now ≡ self.now.bytes.items }
    {
        self.bytes.as_slice()
    }

    // Appends the first bytes of a piece, which there is room for.
    fn append(&mut self, piece: &[u8], count: usize)
        requires some { count ≤ length piece.now }
        requires room { length self.old.bytes.items + count ≤ self.old.room }
        ensures bytes { self.new.bytes.items ≡ self.old.bytes.items ++ take count piece.now }
        ensures room { self.new.room ≡ self.old.room }
        ensures failing { self.new.failing ≡ self.old.failing }
        ensures calls { self.new.calls ≡ self.old.calls }
        ensures faults { self.new.faults ≡ self.old.faults }
    {
        if self.bytes.extend_from_slice(&piece[..count]).is_err() {
            unreachable!()
        }
    }
}

// How many bytes a listed push takes at most.
fn cut_of(cuts: &[Cut], call: u64) -> Option<u32>
    ensures { result ≡ cut_of cuts.now call }
{
    for cut in cuts {
        if u64::from(cut.call) == call {
            return Some(cut.bytes);
        }
    }
    None
}

// How many bytes a push takes where it fails.
fn cut_short(cut: Option<u32>, size: usize, room: u32) -> Option<u32>
    ensures { result ≡ cut_short cut size room }
{
    match cut {
        Some(bytes) => Some(size.min(bytes.min(room) as usize) as u32),
        None if size > room as usize => Some(room),
        None => None,
    }
}

impl Sink for MemSink {
    ghost written = { λ sink. Some sink.bytes.items };

    ghost faults = { λ sink. sink.faults };

    fn push(&mut self, piece: &[u8]) -> Result<(), Taken>
        ensures all { OnOk result (self.new.bytes.items ≡ self.old.bytes.items ++ piece.now) }
        ensures part { IfErr result (λ taken. (taken.bytes ≤ length piece.now) × (self.new.bytes.items ≡ self.old.bytes.items ++ take taken.bytes piece.now)) }
        ensures answer { let cut = next_cut self.old.failing self.old.calls (length piece.now) (self.old.room - length self.old.bytes.items) in MatchResult result (λ _. cut ≡ None) (λ taken. cut ≡ Some taken.bytes) }
        ensures calls { self.new.calls ≡ raised self.old.calls 1 }
        ensures faults { self.new.faults ≡ (if is_ok result then self.old.faults else raised self.old.faults 1) }
        ensures later { self.old.faults ≤ self.new.faults }
        ensures cause { OnErr result (Rose self.old.faults self.new.faults) }
        ensures same { (self.new.room ≡ self.old.room) × (self.new.failing ≡ self.old.failing) }
    {
        self.calls = self.calls.saturating_add(1);
        let room = self.room - self.bytes.len() as u32;
        let cut = cut_of(self.failing.as_slice(), self.calls);
        match cut_short(cut, piece.len(), room) {
            None => {
                self.append(piece, piece.len());
                Ok(())
            }
            Some(bytes) => {
                self.append(piece, bytes as usize);
                self.faults = self.faults.saturating_add(1);
                Err(Taken { bytes })
            }
        }
    }
}
