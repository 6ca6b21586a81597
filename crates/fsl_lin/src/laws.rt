//! What the definitions of sums, differences and products of combinations come to. Each call does nothing;
//! its contract is the law.
ghost use Rattle.std.specs.Prelude.{◌≡◌, ℕ, suc, ◌<◌, ℤ, pos, ◌+ℤ◌, ◌-ℤ◌, ◌*ℤ◌};
ghost use Rattle.fsl_lin.specs.Combination.{Combination, IsKept, coefficient, plus, minus, times, constant, symbol};
ghost use Rattle.fsl_lin.specs.Numbers.{Numbers, part};
ghost use Rattle.fsl_lin.specs.Values.{value_of};

/// Each coefficient of a sum is the sum of the coefficients, and likewise for differences and products; a
/// number has none, and a symbol has its own.
pub fn by_coefficient()
    ensures plus { (a b : Combination) (s : ℕ) → coefficient (plus a b) s ≡ coefficient a s +ℤ coefficient b s }
    ensures minus { (a b : Combination) (s : ℕ) → coefficient (minus a b) s ≡ coefficient a s -ℤ coefficient b s }
    ensures times { (k : ℤ) (a : Combination) (s : ℕ) → coefficient (times k a) s ≡ coefficient a s *ℤ k }
    ensures constant { (n : ℤ) (s : ℕ) → coefficient (constant n) s ≡ pos 0 }
    ensures own { (s : ℕ) → coefficient (symbol s) s ≡ pos 1 }
    ensures other { (s t : ℕ) → (s ≡ t → ⊥) → coefficient (symbol s) t ≡ pos 0 }
{}

/// Two combinations that a `Lin` can hold are equal where their coefficients and constants are.
pub fn equal_by_coefficients()
    ensures { (a b : Combination) → IsKept a → IsKept b → ((s : ℕ) → coefficient a s ≡ coefficient b s) → a.rest ≡ b.rest → a ≡ b }
{}

/// The value of a sum is the sum of the values, and likewise for differences and products. That of a number is the
/// number, where place 0 has 1; that of a symbol is the symbol's, of which there are 512.
pub fn by_value()
    ensures plus { (v : Numbers) (a b : Combination) → value_of v (part (plus a b)) ≡ value_of v (part a) +ℤ value_of v (part b) }
    ensures minus { (v : Numbers) (a b : Combination) → value_of v (part (minus a b)) ≡ value_of v (part a) -ℤ value_of v (part b) }
    ensures times { (v : Numbers) (k : ℤ) (a : Combination) → value_of v (part (times k a)) ≡ value_of v (part a) *ℤ k }
    ensures constant { (v : Numbers) (n : ℤ) → v 0 ≡ pos 1 → value_of v (part (constant n)) ≡ n }
    ensures symbol { (v : Numbers) (s : ℕ) → s < 512 → value_of v (part (symbol s)) ≡ v (suc s) }
{}
