//! Bounds in normal form against the numbers of a term.
ghost use Rattle.std.specs.Prelude.{◌≡◌, ◌||◌, ◌&&◌, int_le, suc, ℕ, length, map};
ghost use Rattle.fsl_lin.specs.Numbers.{part, listed, most, same_above};
ghost use Rattle.fsl_lin.specs.Facts.{by_bound, by_constant};
ghost use Rattle.fsl_pure.specs.Table.{some_have};

use crate::sharing::Shared;
use fsl_lin::{Lin, Sym, is_constant};

/// Whether a term is a constant of at most 0.
pub fn by_constant(numbers: &[i128]) -> bool
    requires { length numbers.now ≡ 513 }
    ensures { result ≡ by_constant (listed numbers.now) }
{
    is_constant(numbers) && numbers[0] <= 0
}

/// Whether each symbol has the same coefficient in a bound and a term.
fn same_above(bound: &Lin, numbers: &[i128]) -> bool
    requires { length numbers.now ≡ 513 }
    ensures { result ≡ same_above most (part bound.now) (listed numbers.now) }
{
    let mut k = numbers.len() - 1;
    while k > 0 {
        if bound.part(k) != numbers[k] {
            return false;
        }
        k -= 1;
    }
    true
}

/// Whether a bound has the same coefficients as a term, and a constant at least as great.
fn gives(bound: &Lin, numbers: &[i128]) -> bool
    requires { length numbers.now ≡ 513 }
    ensures { result ≡ (same_above most (part bound.now) (listed numbers.now) && int_le (listed numbers.now 0) (part bound.now 0)) }
{
    numbers[0] <= bound.rest() && same_above(bound, numbers)
}

/// Whether some bound has the same coefficients as a term, and a constant at least as great.
pub fn by_bound(bounds: &[Shared<Lin>], numbers: &[i128]) -> bool
    requires { length numbers.now ≡ 513 }
    ensures { result ≡ by_bound (map part bounds.now) (listed numbers.now) }
{
    for bound in bounds {
        if gives(bound.get(), numbers) {
            return true;
        }
    }
    false
}

/// Whether some bound has a symbol.
pub fn have(bounds: &[Shared<Lin>], sym: Sym) -> bool
    ensures { result ≡ some_have (suc sym.0) (map part bounds.now) }
{
    for bound in bounds {
        if bound.get().coefficient(sym) != 0 {
            return true;
        }
    }
    false
}
