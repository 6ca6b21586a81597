//! Normal forms: each number is exact, whatever its size.
ghost use Rattle.std.specs.Prelude.{◌≡◌, ℕ, ◌≤◌, ◌^◌, ◌-ℤ◌, ◌*ℤ◌, length, true, false, IfOk, OnOk, IsErrOf};
ghost use Rattle.fsl_lin.specs.Combination.{IsKept, coefficient, is_within};
ghost use Rattle.fsl_lin.specs.Numbers.{part, fits, listed};
ghost use Rattle.fsl_lin.specs.Rows.{normal};
ghost use Rattle.fsl_lin.specs.Equations.{AreNarrow, rows_of};
ghost use Rattle.fsl_lin.specs.Sizes.{IsSize};

use crate::equation::Equation;
use crate::fault::LinFault;
use crate::lin::Lin;
use std::alloc::Global;

/// The places of a term: that of the constant and those of the symbols.
pub const PLACES: usize = 513;

/// Writes the numbers of a term into an array.
fn write_parts(t: &Lin, numbers: &mut [i128])
    requires { length numbers.old ≡ 513 }
    ensures value { listed numbers.new ≡ part t.now }
    ensures kept { IsKept t.now }
{
    let _width = t.width();
    for i in 0..numbers.len() {
        numbers[i] = t.part(i);
    }
}

/// k times the number of a term at a place.
fn share(k: &i128, lin: &Lin, i: usize) -> i128
    requires { is_within (2 ^ 24) k.now ≡ true }
    ensures value { result ≡ k.now *ℤ part lin.now i }
    ensures size { IsSize (2 ^ 114) result }
{
    *k * lin.part(i)
}

/// A number without k times that of a term at a place.
fn less(x: &i128, k: &i128, lin: &Lin, i: usize) -> i128
    requires size { IsSize (2 ^ 124) x.now }
    requires narrow { is_within (2 ^ 24) k.now ≡ true }
    ensures value { result ≡ x.now -ℤ (k.now *ℤ part lin.now i) }
    ensures size { IsSize (2 ^ 125) result }
{
    *x - share(k, lin, i)
}

/// Takes k times a term from an array. Past its width the term has 0, which takes nothing.
fn take(numbers: &mut [i128], k: &i128, lin: &Lin)
    requires whole { length numbers.old ≡ 513 }
    requires size { (i : ℕ) → IsSize (2 ^ 124) (listed numbers.old i) }
    requires narrow { is_within (2 ^ 24) k.now ≡ true }
    ensures { (i : ℕ) → listed numbers.new i ≡ listed numbers.old i -ℤ (k.now *ℤ part lin.now i) }
{
    for i in 0..lin.width() + 1 {
        numbers[i] = less(&numbers[i], k, lin, i);
    }
}

/// Takes from an array what an equation takes of a term, so that its pivot goes. Where the term lacks the pivot,
/// that is nothing, and no place is looked at.
fn take_share(numbers: &mut [i128], t: &Lin, equation: &Equation)
    requires whole { length numbers.old ≡ 513 }
    requires size { (i : ℕ) → IsSize (2 ^ 124) (listed numbers.old i) }
    ensures { (i : ℕ) → listed numbers.new i ≡ listed numbers.old i -ℤ (coefficient t.now equation.now.sym.0 *ℤ part equation.now.lin i) }
{
    let k = t.coefficient(equation.sym);
    if k != 0 {
        take(numbers, &k, &equation.lin);
    }
}

/// Writes the normal form of a term into an array.
pub fn fill(equations: &[Equation], t: &Lin, numbers: &mut [i128])
    requires few { length equations.now ≤ 512 }
    requires narrow { AreNarrow equations.now }
    requires whole { length numbers.old ≡ 513 }
    ensures value { listed numbers.new ≡ normal (rows_of equations.now) (part t.now) }
    ensures size { (i : ℕ) → IsSize (2 ^ 124) (listed numbers.new i) }
{
    write_parts(t, numbers);
    for equation in equations {
        take_share(numbers, t, equation);
    }
}

/// The normal form of a term.
pub fn normal_of(alloc: Global, equations: &[Equation], t: &Lin) -> Result<Lin, LinFault>
    requires few { length equations.now ≤ 512 }
    requires narrow { AreNarrow equations.now }
    ensures exact { IfOk result (λ n. part n ≡ normal (rows_of equations.now) (part t.now)) }
    ensures kept { IfOk result (λ n. IsKept n) }
    ensures narrow { OnOk result (fits (normal (rows_of equations.now) (part t.now)) ≡ true) }
    ensures wide { IsErrOf result LinFault.Wide → fits (normal (rows_of equations.now) (part t.now)) ≡ false }
{
    let mut numbers = [0i128; PLACES];
    fill(equations, t, &mut numbers);
    Lin::from_numbers(alloc, &numbers, &1)
}
