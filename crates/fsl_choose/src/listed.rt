//! Choices that are written down beforehand.
ghost use Rattle.std.specs.Prelude.{◌≡◌};
ghost use Rattle.fsl_choose.specs.Picks.{listed_pick, listed_rest};

use crate::choose::Choose;
use fsl_base::List;
use std::marker::Model;

/// Answers the next of its list, modulo `n`, and 0 after the list.
#[derive(Drop)]
pub struct Listed {
    picks: List<u32>,
    next: usize,
}

impl Model for Listed {
    ghost use Rattle.std.specs.Prelude.{List as Seq, ℕ, drop, length, ◌≤◌};

    ghost Value = { Seq ℕ };

    ghost view = { λ listed. drop listed.next listed.picks };

    ghost invariant = { λ listed. listed.next ≤ length listed.picks };
}

impl Listed {
    /// Choices by a list. It takes no memory.
    pub fn new(picks: List<u32>) -> Listed
        ensures { result ≡ picks }
    {
        Listed { picks, next: 0 }
    }
}

impl Choose for Listed {
    ghost answer = { listed_pick };

    ghost rest = { λ s n. listed_rest s };

    fn pick(&mut self, n: u32) -> u32 {
        match self.picks.as_slice().get(self.next) {
            None => 0,
            Some(pick) => {
                let answer = *pick % n;
                self.next += 1;
                answer
            }
        }
    }
}
