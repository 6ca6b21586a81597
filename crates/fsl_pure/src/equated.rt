//! What an equation makes of the bounds that are kept.
ghost use Rattle.std.specs.Prelude.{◌≡◌, ◌∷◌, ◌^◌, ℕ, false, length, map, suc, IfOk, OnOk, IsErrOf};
ghost use Rattle.fsl_lin.specs.Combination.{Combination};
ghost use Rattle.fsl_lin.specs.Numbers.{part, opposite, fits};
ghost use Rattle.fsl_lin.specs.Rows.{normal};
ghost use Rattle.fsl_lin.specs.Equations.{rows_of};
ghost use Rattle.fsl_lin.specs.Facts.{all_fit};
ghost use Rattle.fsl_pure.specs.Known.{kept_next, Leaves};
ghost use Rattle.fsl_pure.specs.Table.{some_have};

use crate::kept::Kept;
use crate::sums::negate;
use fsl_lin::{Eqs, Lin, LinFault, PLACES, Sym, Took};
use std::alloc::Global;

/// Bounds with the two that an equation without a pivot is kept as.
fn with_two_bounds(alloc: Global, kept: &Kept, eqs: &Eqs, t: &Lin) -> Result<Kept, LinFault>
    ensures exact { IfOk result (λ next. map part next ≡ normal (rows_of eqs.now) (part t.now) ∷ opposite (normal (rows_of eqs.now) (part t.now)) ∷ map part kept.now) }
    ensures wide { IsErrOf result LinFault.Wide → all_fit (normal (rows_of eqs.now) (part t.now) ∷ opposite (normal (rows_of eqs.now) (part t.now)) ∷ map part kept.now) ≡ false }
{
    let mut next = kept.copy(alloc)?;
    match add_opposite(alloc, &mut next, eqs, t) {
        Ok(()) => match next.add_term(alloc, eqs, t) {
            Ok(()) => Ok(next),
            Err(fault) => Err(fault),
        },
        Err(fault) => Err(fault),
    }
}

/// Adds the bound that the opposite of a term is at most 0.
fn add_opposite(alloc: Global, kept: &mut Kept, eqs: &Eqs, t: &Lin) -> Result<(), LinFault>
    ensures added { OnOk result (map part kept.new ≡ opposite (normal (rows_of eqs.now) (part t.now)) ∷ map part kept.old) }
    ensures wide { IsErrOf result LinFault.Wide → fits (opposite (normal (rows_of eqs.now) (part t.now))) ≡ false }
{
    let mut numbers = [0i128; PLACES];
    eqs.fill(t, &mut numbers);
    negate(&mut numbers);
    kept.add(alloc, &numbers)
}

/// Bounds as they are once an equation is among the reduced ones, by what became of it.
pub fn kept_after(
    alloc: Global,
    kept: &Kept,
    eqs: &Eqs,
    t: &Lin,
    took: Took,
) -> Result<Kept, LinFault>
    ensures exact { Leaves (rows_of eqs.now) took (map part kept.now) → IfOk result (λ next. map part next ≡ kept_next (rows_of eqs.now) (part t.now) took (map part kept.now)) }
    ensures wide { IsErrOf result LinFault.Wide → all_fit (kept_next (rows_of eqs.now) (part t.now) took (map part kept.now)) ≡ false }
{
    match took {
        Took::Pivot { sym } => with_pivot(alloc, kept, eqs, sym),
        Took::Trivial | Took::Absurd => same(alloc, kept),
        Took::NoPivot => with_two_bounds(alloc, kept, eqs, t),
    }
}

/// The same bounds.
fn same(alloc: Global, kept: &Kept) -> Result<Kept, LinFault>
    ensures exact { IfOk result (λ next. next ≡ kept.now) }
    ensures never_wide { IsErrOf result LinFault.Wide → ⊥ }
{
    Ok(kept.copy(alloc)?)
}

/// Bounds in normal form by equations of which the newest has this pivot.
fn with_pivot(alloc: Global, kept: &Kept, eqs: &Eqs, sym: Sym) -> Result<Kept, LinFault>
    ensures exact { (some_have (suc sym.0) (map part kept.now) ≡ false → map (normal (rows_of eqs.now)) (map part kept.now) ≡ map part kept.now) → IfOk result (λ next. map part next ≡ map (normal (rows_of eqs.now)) (map part kept.now)) }
    ensures wide { IsErrOf result LinFault.Wide → all_fit (map (normal (rows_of eqs.now)) (map part kept.now)) ≡ false }
{
    if kept.have(sym) {
        kept.renewed(alloc, eqs)
    } else {
        same(alloc, kept)
    }
}
