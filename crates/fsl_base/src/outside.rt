//! The outside of the program, as its contracts see it: a shelf of named files, a sink of bytes, and
//! a gate that every step passes. Faults are counted, so that no body can make one up.
ghost use Rattle.std.specs.Prelude.{◌≡◌, ◌<◌, ◌≤◌, ◌⊎◌, ℕ, Bool, true, false, List, Option, length, take, IfOk, IfErr, OnOk, OnErr};
ghost use Rattle.std.specs.Io.KnownBytes.{Appends, Consumes, IsAtEnd, Keeps};
ghost use Rattle.fsl_base.specs.Outside.{Content, raised, Rose, HoldsNo, IsWhole, pulled};

/// A call of a shelf that failed.
#[derive(Clone, Copy, Debug, PartialEq, Eq)]
pub struct Failed;

/// A push that failed once it had taken this many bytes.
#[derive(Clone, Copy, Debug, PartialEq, Eq)]
pub struct Taken {
    pub bytes: u32,
}

/// Named files that are read from their first byte to their last, one at a time.
pub trait Shelf {
    /// What each name holds, where the shelf tells it.
    ghost content: { Self → Content };

    /// What is left of the file that was begun, where the shelf tells it.
    ghost left: { Self → Option (List ℕ) };

    /// Whether the last `begin` succeeded; false before the first.
    ghost begun: { Self → Bool };

    /// How often the system failed.
    ghost faults: { Self → ℕ };

    /// How many bytes the pulls gave.
    ghost given: { Self → ℕ };

    /// Goes to the first byte of a file. It fails where the system does, or where there is no such
    /// file.
    fn begin(&mut self, name: &str) -> Result<(), Failed>
        ensures content { content self.new ≡ content self.old }
        ensures whole { OnOk result (IsWhole (content self.old) name.now (left self.new)) }
        ensures begun { OnOk result (begun self.new ≡ true) }
        ensures not_begun { OnErr result (begun self.new ≡ false) }
        ensures given { given self.new ≡ given self.old }
        ensures later { faults self.old ≤ faults self.new }
        ensures cause { OnErr result (Rose (faults self.old) (faults self.new) ⊎ HoldsNo (content self.old) name.now) };

    /// Moves the next bytes of the file into the front of `buf` and answers how many, 0 at the end of
    /// the file. It fails only where the system does, and then takes nothing.
    fn pull(&mut self, buf: &mut [u8]) -> Result<usize, Failed>
        requires begun { begun self.old ≡ true }
        requires room { 0 < length buf.old }
        ensures content { content self.new ≡ content self.old }
        ensures begun { begun self.new ≡ true }
        ensures count { IfOk result (λ n. n ≤ length buf.new) }
        ensures bytes { IfOk result (λ n. Consumes (left self.old) (left self.new) (take n buf.new)) }
        ensures end { IfOk result (λ n. n ≡ 0 → IsAtEnd (left self.new)) }
        ensures kept { OnErr result (Keeps (left self.old) (left self.new)) }
        ensures given { given self.new ≡ raised (given self.old) (pulled result) }
        ensures later { faults self.old ≤ faults self.new }
        ensures cause { OnErr result (Rose (faults self.old) (faults self.new)) };
}

/// Bytes that are written one after another.
pub trait Sink {
    /// What was written, where the sink tells it.
    ghost written: { Self → Option (List ℕ) };

    /// How often the system failed.
    ghost faults: { Self → ℕ };

    /// Writes a piece. It fails only where the system does, and then the first bytes of the piece, as
    /// many as `Taken` says, were written.
    fn push(&mut self, piece: &[u8]) -> Result<(), Taken>
        ensures all { OnOk result (Appends (written self.old) (written self.new) piece.now) }
        ensures part { IfErr result (λ taken. (taken.bytes ≤ length piece.now) × Appends (written self.old) (written self.new) (take taken.bytes piece.now)) }
        ensures later { faults self.old ≤ faults self.new }
        ensures cause { OnErr result (Rose (faults self.old) (faults self.new)) };
}

/// A step of the program: a unit that is computed, or a move of a machine's thread.
#[derive(Clone, Copy, Debug, PartialEq, Eq)]
pub enum Spot {
    Unit { number: u32 },
    Move { thread: u32 },
}

/// What is called before every step. It changes nothing: a test may let steps wait for one another.
pub trait Gate: Sync {
    /// Called before a step.
    fn before(&self, spot: Spot);
}
