//! Arrays of the numbers of terms: differences and opposites; and the term by which two terms are apart.
ghost use Rattle.std.specs.Prelude.{◌≡◌, ℕ, ◌<◌, ◌^◌, ◌+ℤ◌, ◌-ℤ◌, length, pos, false, IfOk, IsErrOf};
ghost use Rattle.fsl_lin.specs.Combination.{plus, minus, constant, is_narrow};
ghost use Rattle.fsl_lin.specs.Numbers.{part, listed, gapped, opposite};
ghost use Rattle.fsl_lin.specs.Rows.{normal};
ghost use Rattle.fsl_lin.specs.Equations.{rows_of};
ghost use Rattle.fsl_lin.specs.Facts.{is_zero};
ghost use Rattle.fsl_lin.specs.Sizes.{IsSize};

use fsl_lin::{Eqs, Lin, LinFault, PLACES, is_constant};
use std::alloc::Global;

/// Writes the difference of two terms, and a number more, in the place of the first.
fn subtract(numbers: &mut [i128], other: &[i128], gap: &i128)
    requires whole { length numbers.old ≡ 513 }
    requires whole_other { length other.now ≡ 513 }
    requires size { (i : ℕ) → IsSize (2 ^ 124) (listed numbers.old i) }
    requires size_other { (i : ℕ) → IsSize (2 ^ 124) (listed other.now i) }
    requires size_gap { IsSize (2 ^ 90) gap.now }
    ensures value { listed numbers.new ≡ gapped (listed numbers.old) (listed other.now) gap.now }
    ensures size { (i : ℕ) → IsSize (2 ^ 126) (listed numbers.new i) }
{
    subtract_places(numbers, other);
    numbers[0] = plus(&numbers[0], gap);
}

/// Writes the normal form of the difference of two terms, and a number more, into an array.
pub fn difference(eqs: &Eqs, a: &Lin, b: &Lin, gap: &i128, numbers: &mut [i128])
    requires whole { length numbers.old ≡ 513 }
    requires size { IsSize (2 ^ 90) gap.now }
    ensures value { listed numbers.new ≡ normal (rows_of eqs.now) (gapped (part a.now) (part b.now) gap.now) }
    ensures size { (i : ℕ) → IsSize (2 ^ 126) (listed numbers.new i) }
{
    let mut other = [0i128; PLACES];
    eqs.fill(b, &mut other);
    eqs.fill(a, numbers);
    subtract(numbers, &other, gap);
}

/// Writes the difference of two terms, and a number more, into an array.
fn write_gap(alloc: Global, a: &Lin, b: &Lin, gap: &i128, numbers: &mut [i128])
    requires whole { length numbers.old ≡ 513 }
    requires size { IsSize (2 ^ 90) gap.now }
    ensures value { listed numbers.new ≡ gapped (part a.now) (part b.now) gap.now }
    ensures size { (i : ℕ) → IsSize (2 ^ 126) (listed numbers.new i) }
{
    let no_equations = Eqs::new(alloc);
    difference(&no_equations, a, b, gap, numbers);
}

/// The term a - b + gap, for a gap of at most 2^90 in size. No number on the way has a bound, so `Wide` comes
/// exactly where a number of the term itself passes its bound.
pub fn gap_between(alloc: Global, a: &Lin, gap: &i128, b: &Lin) -> Result<Lin, LinFault>
    requires { IsSize (2 ^ 90) gap.now }
    ensures exact { IfOk result (λ t. t ≡ plus (minus a.now b.now) (constant gap.now)) }
    ensures wide { IsErrOf result LinFault.Wide → is_narrow (plus (minus a.now b.now) (constant gap.now)) ≡ false }
{
    let _widths = (a.width(), b.width());
    let mut numbers = [0i128; PLACES];
    write_gap(alloc, a, b, gap, &mut numbers);
    match Lin::from_numbers(alloc, &numbers, &1) {
        Ok(t) => Ok(t),
        Err(fault) => Err(fault),
    }
}

/// Whether a term is 0.
pub fn is_zero(numbers: &[i128]) -> bool
    requires { length numbers.now ≡ 513 }
    ensures { result ≡ is_zero (listed numbers.now) }
{
    is_constant(numbers) && numbers[0] == 0
}

/// Writes the opposite of a term in its place.
pub fn negate(numbers: &mut [i128])
    requires { (i : ℕ) → IsSize (2 ^ 126) (listed numbers.old i) }
    ensures value { listed numbers.new ≡ opposite (listed numbers.old) }
    ensures size { (i : ℕ) → IsSize (2 ^ 126) (listed numbers.new i) }
{
    for i in 0..numbers.len() {
        numbers[i] = -numbers[i];
    }
}

/// Writes the difference of two terms in the place of the first.
fn subtract_places(numbers: &mut [i128], other: &[i128])
    requires same_length { length numbers.old ≡ length other.now }
    requires size { (i : ℕ) → IsSize (2 ^ 124) (listed numbers.old i) }
    requires size_other { (i : ℕ) → IsSize (2 ^ 124) (listed other.now i) }
    ensures value { listed numbers.new ≡ gapped (listed numbers.old) (listed other.now) (pos 0) }
    ensures size { (i : ℕ) → IsSize (2 ^ 125) (listed numbers.new i) }
{
    for i in 0..numbers.len() {
        numbers[i] = minus(&numbers[i], &other[i]);
    }
}

fn minus(x: &i128, y: &i128) -> i128
    requires first { IsSize (2 ^ 124) x.now }
    requires second { IsSize (2 ^ 124) y.now }
    ensures value { result ≡ x.now -ℤ y.now }
    ensures size { IsSize (2 ^ 125) result }
{
    *x - *y
}

fn plus(x: &i128, y: &i128) -> i128
    requires first { IsSize (2 ^ 125) x.now }
    requires second { IsSize (2 ^ 90) y.now }
    ensures value { result ≡ x.now +ℤ y.now }
    ensures size { IsSize (2 ^ 126) result }
{
    *x + *y
}
