//! Which of a sum and a difference is meant.
ghost use Rattle.std.specs.Prelude.{◌≡◌};
ghost use Rattle.fsl_lin.specs.Sign.{signed};

/// A sum or a difference.
#[derive(Clone, Copy, Debug, PartialEq, Eq)]
pub enum Sign {
    Plus,
    Minus,
}

impl Sign {
    /// The sum or the difference of two numbers.
    pub fn of(self, x: i32, y: i32) -> i128
        ensures { result ≡ signed self x y }
    {
        match self {
            Sign::Plus => i128::from(x) + i128::from(y),
            Sign::Minus => i128::from(x) - i128::from(y),
        }
    }
}
