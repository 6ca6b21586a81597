//! One more equation among reduced ones.
ghost use Rattle.std.specs.Prelude.{◌≡◌, ◌<◌, ◌≤◌, suc, ◌∷◌, length, true, false, IfOk, OnOk, IsErrOf};
ghost use Rattle.fsl_lin.specs.Combination.{IsKept};
ghost use Rattle.fsl_lin.specs.Numbers.{part, listed};
ghost use Rattle.fsl_lin.specs.Rows.{all_normal, all_without, assumed, extended, rows_fit, took_of};
ghost use Rattle.fsl_lin.specs.Equations.{AreKept, AreNarrow, row_of, rows_of};
ghost use Rattle.fsl_lin.specs.Step.{IsStep};

use crate::equation::Equation;
use crate::fault::LinFault;
use crate::lin::Lin;
use crate::normal::{PLACES, fill, normal_of};
use crate::places::{is_constant, pivot_of};
use crate::step::Step;
use crate::sym::Sym;
use crate::took::Took;
use std::alloc::Global;

/// Each equation in normal form by new ones.
fn others(
    alloc: Global,
    equations: &[Equation],
    new: &[Equation],
) -> Result<Vec<Equation>, LinFault>
    requires few { length new.now ≤ 512 }
    requires narrow { AreNarrow equations.now }
    requires narrow_new { AreNarrow new.now }
    ensures exact { IfOk result (λ es. rows_of es.items ≡ all_normal (rows_of new.now) (rows_of equations.now)) }
    ensures narrow { IfOk result (λ es. AreNarrow es.items) }
    ensures wide { IsErrOf result LinFault.Wide → rows_fit (all_normal (rows_of new.now) (rows_of equations.now)) ≡ false }
{
    let mut reduced = Vec::new(alloc);
    for equation in equations {
        match normal_of(alloc, new, &equation.lin) {
            Ok(lin) => reduced.push(Equation {
                sym: equation.sym,
                lin,
            })?,
            Err(fault) => return Err(fault),
        }
    }
    Ok(reduced)
}

/// The equations with one more, whose pivot stands in none of the others any more.
pub fn extended(
    alloc: Global,
    equations: &[Equation],
    new: Equation,
) -> Result<Vec<Equation>, LinFault>
    requires narrow { AreNarrow equations.now }
    requires place { new.sym.0 < 512 }
    requires kept { IsKept new.lin }
    ensures exact { IfOk result (λ es. rows_of es.items ≡ row_of new ∷ all_without (suc new.sym.0) (part new.lin) (rows_of equations.now)) }
    ensures narrow { IfOk result (λ es. AreNarrow es.items) }
    ensures wide { IsErrOf result LinFault.Wide → rows_fit (all_without (suc new.sym.0) (part new.lin) (rows_of equations.now)) ≡ false }
{
    let mut next = Vec::new(alloc);
    next.push(new)?;
    match others(alloc, equations, next.as_slice()) {
        Ok(mut rest) => {
            next.append(&mut rest)?;
            Ok(next)
        }
        Err(fault) => Err(fault),
    }
}

/// The symbol of a place.
pub fn symbol_at(place: usize) -> Sym
    requires low { 0 < place }
    requires high { place ≤ 512 }
    ensures { suc result.0 ≡ place }
{
    Sym((place - 1) as u32)
}

/// The equations with one more, of which an array has the numbers and whose pivot has 1 or -1.
fn with_pivot(
    alloc: Global,
    equations: &[Equation],
    numbers: &[i128],
    place: usize,
) -> Result<Vec<Equation>, LinFault>
    requires narrow { AreNarrow equations.now }
    requires whole { length numbers.now ≡ 513 }
    requires low { 0 < place }
    requires high { place ≤ 512 }
    ensures exact { IfOk result (λ es. rows_of es.items ≡ extended (rows_of equations.now) (listed numbers.now) (Some place)) }
    ensures narrow { IfOk result (λ es. AreNarrow es.items) }
    ensures wide { IsErrOf result LinFault.Wide → rows_fit (extended (rows_of equations.now) (listed numbers.now) (Some place)) ≡ false }
{
    match Lin::from_numbers(alloc, numbers, &numbers[place]) {
        Ok(lin) => extended(
            alloc,
            equations,
            Equation {
                sym: symbol_at(place),
                lin,
            },
        ),
        Err(fault) => Err(fault),
    }
}

/// What becomes of an equation without a pivot, of which an array has the numbers.
fn without_pivot(numbers: &[i128]) -> Took
    requires { length numbers.now ≡ 513 }
    ensures { result ≡ took_of (listed numbers.now) None }
{
    if !is_constant(numbers) {
        Took::NoPivot
    } else if numbers[0] == 0 {
        Took::Trivial
    } else {
        Took::Absurd
    }
}

/// What the equation `t = 0` makes of those that are there.
pub fn step(alloc: Global, equations: &[Equation], t: &Lin) -> Result<Step, LinFault>
    requires { AreKept equations.now }
    ensures exact { IfOk result (λ step. IsStep equations.now (part t.now) step) }
    ensures wide { IsErrOf result LinFault.Wide → rows_fit (assumed (rows_of equations.now) (part t.now)) ≡ false }
{
    let mut numbers = [0i128; PLACES];
    fill(equations, t, &mut numbers);
    match pivot_of(&numbers) {
        Some(place) => match with_pivot(alloc, equations, &numbers, place) {
            Ok(equations) => Ok(Step::More {
                sym: symbol_at(place),
                equations,
            }),
            Err(fault) => Err(fault),
        },
        None => Ok(Step::Same {
            took: without_pivot(&numbers),
        }),
    }
}
