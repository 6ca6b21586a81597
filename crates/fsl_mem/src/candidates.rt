//! The candidates of reads and writes, over the slots of one location by ascending ends.
ghost use Rattle.std.specs.Prelude.{◌≡◌, ◌≤◌, ◌^◌, ◌↔◌, IfOk, IsTrue};
ghost use Rattle.std.specs.List.{list_any};
ghost use Rattle.fsl_mem.specs.Candidates.{nothing, readable, places, gap_to, room_after, overlaps, is_taken, IsBounded};

use crate::slots::{Gap, Slot, Source};
use fsl_base::List;
use std::alloc::{AllocError, Global};

/// How far above all messages a new one stands.
const STRIDE: u64 = 1 << 40;

/// The sources of a read of a location that is seen up to `seen`.
pub(crate) fn sources(alloc: Global, slots: &[Slot], seen: u64) -> Result<List<Source>, AllocError>
    ensures { IfOk result (λ them. them ≡ readable seen slots.now) }
{
    let mut sources = without_source(alloc, seen)?;
    for slot in slots {
        if seen <= slot.gap.to {
            sources.push(Source::Message {
                number: slot.number,
            })?;
        }
    }
    Ok(sources)
}

/// The read without a source, where nothing is seen.
fn without_source(alloc: Global, seen: u64) -> Result<List<Source>, AllocError>
    ensures { IfOk result (λ them. them ≡ nothing seen) }
{
    let mut sources = List::new(alloc);
    if seen == 0 {
        sources.push(Source::Nothing)?;
    }
    Ok(sources)
}

/// The places of a write at a location that is seen up to `seen`.
pub(crate) fn gaps(alloc: Global, slots: &[Slot], seen: u64) -> Result<List<Gap>, AllocError>
    requires { IsBounded slots.now }
    ensures { IfOk result (λ them. them ≡ places seen slots.now) }
{
    let mut gaps = List::new(alloc);
    let mut low = 0;
    for slot in slots {
        if seen <= low && low < slot.gap.from {
            gaps.push(gap_to(slot.gap.from - (slot.gap.from - low) / 2))?;
        }
        low = slot.gap.to;
    }
    if seen <= low {
        gaps.push(gap_to(low + STRIDE))?;
    }
    Ok(gaps)
}

/// Whether each end leaves room above it.
pub(crate) fn bounded(slots: &[Slot]) -> bool
    ensures { IsTrue result ↔ IsBounded slots.now }
{
    for slot in slots {
        if 1 << 63 < slot.gap.to {
            return false;
        }
    }
    true
}

/// The interval of length 1 that ends at `to`.
fn gap_to(to: u64) -> Gap
    requires { 1 ≤ to }
    ensures { result ≡ gap_to to }
{
    Gap { from: to - 1, to }
}

/// The interval of length 1 right after `low`, where there is room for it.
pub(crate) fn after(slots: &[Slot], low: u64) -> Option<Gap>
    requires { low ≤ 2 ^ 63 }
    ensures { result ≡ room_after low slots.now }
{
    for slot in slots {
        if low < slot.gap.to {
            return if low < slot.gap.from {
                Some(gap_to(low + 1))
            } else {
                None
            };
        }
    }
    Some(gap_to(low + 1))
}

/// Whether an interval is empty or overlaps one that is there.
pub(crate) fn taken(slots: &[Slot], gap: &Gap) -> bool
    ensures { result ≡ is_taken gap.now slots.now }
{
    gap.to <= gap.from || overlapped(slots, gap)
}

/// Whether an interval overlaps one that is there.
fn overlapped(slots: &[Slot], gap: &Gap) -> bool
    ensures { result ≡ list_any (overlaps gap.now) slots.now }
{
    for slot in slots {
        if gap.from < slot.gap.to && slot.gap.from < gap.to {
            return true;
        }
    }
    false
}
