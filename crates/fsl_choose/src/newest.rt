//! The last candidate, which is the newest message.
ghost use Rattle.std.specs.Prelude.{◌-◌};

use crate::choose::Choose;

/// Answers `n - 1` always.
#[derive(Clone, Copy, Debug, PartialEq, Eq)]
pub struct Newest;

impl Choose for Newest {
    ghost answer = { λ s n. n - 1 };

    ghost rest = { λ s n. s };

    fn pick(&mut self, n: u32) -> u32 {
        n - 1
    }
}
