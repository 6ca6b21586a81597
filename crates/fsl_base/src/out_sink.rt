//! The real sink: standard output. What reaches it no contract can say; this is trusted to write it.
ghost use Rattle.std.specs.Prelude.{◌≡◌, ◌≤◌, None};
ghost use Rattle.fsl_base.specs.Outside.{raised};

use crate::outside::{Sink, Taken};
use std::io::Write;
use std::rt::{HostRuntime, Stdout};

/// Standard output. A write that takes nothing counts as a fault, as one that fails does.
#[derive(Drop)]
pub struct OutSink {
    out: Stdout,
    faults: u64,
}

impl OutSink {
    /// The program's standard output.
    pub fn new(rt: &HostRuntime) -> OutSink {
        OutSink {
            out: rt.stdout(),
            faults: 0,
        }
    }

    // Counts a fault once some bytes were written.
    fn fault(&mut self, written: usize) -> Taken
        ensures faults { self.new.faults ≡ raised self.old.faults 1 }
        ensures bytes { result.bytes ≤ written }
    {
        self.faults = self.faults.saturating_add(1);
        Taken {
            bytes: written.min(u32::MAX as usize) as u32,
        }
    }
}

impl Sink for OutSink {
    ghost written = { λ _. None };

    ghost faults = { λ sink. sink.faults };

    fn push(&mut self, piece: &[u8]) -> Result<(), Taken> {
        let mut written = 0;
        for _turn in 0..u64::MAX {
            if written == piece.len() {
                return match self.out.flush() {
                    Ok(()) => Ok(()),
                    Err(_) => Err(self.fault(written)),
                };
            }
            match self.out.write(&piece[written..]) {
                Ok(0) | Err(_) => break,
                Ok(count) => written += count,
            }
        }
        Err(self.fault(written))
    }
}
