//! Choices by a seed: the words of a PCG generator (O'Neill, "PCG: a family of simple fast
//! space-efficient statistically good algorithms for random number generation", XSH RR 64/32).
ghost use Rattle.std.specs.Prelude.{◌≡◌};
ghost use Rattle.rand_pcg.specs.Lcg.{started, increment_of};
ghost use Rattle.rand_pcg.specs.Pcg.{multiplier_64};
ghost use Rattle.fsl_choose.specs.Picks.{seeded_pick, seeded_rest};

use crate::choose::Choose;
use rand_core::utils::NextWord;
use rand_pcg::Lcg64Xsh32;
use std::marker::Model;

/// Answers the next word of its generator, modulo `n`.
#[derive(Drop)]
pub struct Seeded {
    words: Lcg64Xsh32,
}

impl Model for Seeded {
    ghost use Rattle.rand_pcg.specs.Lcg.{Lcg};

    ghost Value = { Lcg };

    ghost view = { λ seeded. seeded.words };
}

impl Seeded {
    /// The generator of a seed for one worker: the seed is its first state, and the worker its stream.
    pub fn new(seed: u32, worker: u32) -> Seeded
        ensures { result ≡ started 64 multiplier_64 seed (increment_of 64 worker) }
    {
        Seeded {
            words: Lcg64Xsh32::new(u64::from(seed), u64::from(worker)),
        }
    }
}

impl Choose for Seeded {
    ghost answer = { seeded_pick };

    ghost rest = { λ s n. seeded_rest s };

    fn pick(&mut self, n: u32) -> u32 {
        let word: u32 = self.words.next_word();
        word % n
    }
}
