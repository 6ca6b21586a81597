//! The choice of one of n candidates.
ghost use Rattle.std.specs.Prelude.{◌≡◌, ℕ, ◌≤◌, ◌<◌};

/// A source of choices. Its state determines them all.
pub trait Choose {
    // The number that a state answers for each n.
    ghost answer: { Self → ℕ → ℕ };

    // The state that this answer leaves.
    ghost rest: { Self → ℕ → Self };

    /// A number below `n`, which is at least 1.
    fn pick(&mut self, n: u32) -> u32
        requires { 1 ≤ n }
        ensures below { result < n }
        ensures answer { result ≡ answer self.old n }
        ensures rest { self.new ≡ rest self.old n };
}
