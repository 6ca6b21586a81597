//! Bounds that are kept: each in normal form, and the difference bounds among them in a table.
ghost use Rattle.std.specs.Prelude.{◌≡◌, ◌≤◌, ◌^◌, ◌∷◌, [], ℕ, true, false, length, map, reverse, suc, IfOk, OnOk, OnErr, IsErrOf};
ghost use Rattle.fsl_lin.specs.Combination.{Combination};
ghost use Rattle.fsl_lin.specs.Numbers.{part, listed, fits};
ghost use Rattle.fsl_lin.specs.Rows.{normal};
ghost use Rattle.fsl_lin.specs.Equations.{rows_of};
ghost use Rattle.fsl_lin.specs.Facts.{proves_normal, by_bound, by_constant, all_fit, at_most, edges};
ghost use Rattle.fsl_lin.specs.Walks.{least};
ghost use Rattle.fsl_lin.specs.Sizes.{IsSize};
ghost use Rattle.fsl_pure.specs.Table.{contradict, some_have};

use crate::bound::{by_bound, by_constant, have};
use crate::difference::edge_of;
use crate::sharing::{Shared, push, share_each};
use crate::table::{lay_unless, walks};
use fsl_bounds::Bounds;
use fsl_lin::{Edge, Eqs, Lin, LinFault, PLACES, Sym};
use std::alloc::{AllocError, Global};
use std::marker::Model;

/// Bounds in normal form.
#[derive(Drop)]
pub struct Kept {
    bounds: Vec<Shared<Lin>>,
    table: Bounds,
    refuted: bool,
}

impl Model for Kept {
    ghost use Rattle.std.specs.Prelude.{List as Seq, map, reverse};
    ghost use Rattle.fsl_lin.specs.Combination.{Combination};
    ghost use Rattle.fsl_lin.specs.Numbers.{part};
    ghost use Rattle.fsl_pure.specs.Table.{IsTable};

    ghost Value = { Seq Combination };

    ghost view = { λ kept. reverse kept.bounds.items };

    ghost invariant = { λ kept. IsTable (map part (reverse kept.bounds.items)) kept.table kept.refuted };
}

impl Kept {
    /// No bounds.
    pub fn new(alloc: Global) -> Result<Kept, AllocError>
        ensures { IfOk result (λ kept. kept ≡ []) }
    {
        Ok(Kept {
            bounds: Vec::new(alloc),
            table: Bounds::new(alloc)?,
            refuted: false,
        })
    }

    /// Each bound is one that a `Lin` holds: a fact for callers, and no code.
    pub fn fit(&self)
        ensures { all_fit (map part self.now) ≡ true }
    {
        let _refuted = self.refuted;
    }

    /// Whether the bounds contradict each other.
    pub fn refuted(&self) -> bool
        ensures { result ≡ contradict (map part self.now) }
    {
        self.refuted
    }

    /// Whether some bound has a symbol.
    pub fn have(&self, sym: Sym) -> bool
        ensures { result ≡ some_have (suc sym.0) (map part self.now) }
    {
        have(self.bounds.as_slice(), sym)
    }

    /// Adds a bound of which an array has the normal form. Where a number passes its bound, and for want of
    /// memory, nothing changes.
    pub fn add(&mut self, alloc: Global, numbers: &[i128]) -> Result<(), LinFault>
        requires whole { length numbers.now ≡ 513 }
        requires size { (i : ℕ) → IsSize (2 ^ 126) (listed numbers.now i) }
        ensures added { OnOk result (map part self.new ≡ listed numbers.now ∷ map part self.old) }
        ensures kept { OnErr result (self.new ≡ self.old) }
        ensures wide { IsErrOf result LinFault.Wide → fits (listed numbers.now) ≡ false }
    {
        let lin = match Lin::from_numbers(alloc, numbers, &1) {
            Ok(lin) => Shared::new(alloc, lin)?,
            Err(fault) => return Err(fault),
        };
        self.bounds.reserve(1)?;
        let refuted = lay_unless(self.refuted, &mut self.table, alloc, numbers)?;
        push(&mut self.bounds, lin);
        self.refuted = refuted;
        Ok(())
    }

    /// Adds the bound that a term is at most 0.
    pub fn add_term(&mut self, alloc: Global, eqs: &Eqs, t: &Lin) -> Result<(), LinFault>
        ensures added { OnOk result (map part self.new ≡ normal (rows_of eqs.now) (part t.now) ∷ map part self.old) }
        ensures kept { OnErr result (self.new ≡ self.old) }
        ensures wide { IsErrOf result LinFault.Wide → fits (normal (rows_of eqs.now) (part t.now)) ≡ false }
    {
        let mut numbers = [0i128; PLACES];
        eqs.fill(t, &mut numbers);
        self.add(alloc, &numbers)
    }

    /// Whether a bound is proved of which an array has the normal form.
    pub fn proves(&self, numbers: &[i128]) -> bool
        requires clear { contradict (map part self.now) ≡ false }
        requires whole { length numbers.now ≡ 513 }
        requires size { (i : ℕ) → IsSize (2 ^ 126) (listed numbers.now i) }
        ensures { result ≡ proves_normal (map part self.now) (listed numbers.now) }
    {
        match edge_of(numbers) {
            Some(edge) => walks(&self.table, &edge),
            None => by_constant(numbers) || by_bound(self.bounds.as_slice(), numbers),
        }
    }

    /// Whether some walk along the difference bounds has at most an edge's bound as its total.
    pub fn walks(&self, edge: &Edge) -> bool
        requires { contradict (map part self.now) ≡ false }
        ensures { result ≡ at_most (least (edges (map part self.now)) edge.now.from edge.now.to) edge.now.bound }
    {
        walks(&self.table, edge)
    }

    /// The bounds in normal form by other equations.
    pub fn renewed(&self, alloc: Global, eqs: &Eqs) -> Result<Kept, LinFault>
        ensures exact { IfOk result (λ kept. map part kept ≡ map (normal (rows_of eqs.now)) (map part self.now)) }
        ensures wide { IsErrOf result LinFault.Wide → all_fit (map (normal (rows_of eqs.now)) (map part self.now)) ≡ false }
    {
        renewed(alloc, self.bounds.as_slice(), eqs)
    }

    /// The same bounds.
    pub fn copy(&self, alloc: Global) -> Result<Kept, AllocError>
        ensures { IfOk result (λ kept. kept ≡ self.now) }
    {
        Ok(Kept {
            bounds: share_each(alloc, self.bounds.as_slice())?,
            table: self.table.copy(alloc)?,
            refuted: self.refuted,
        })
    }
}

/// Bounds in normal form by other equations, the oldest first.
fn renewed(alloc: Global, bounds: &[Shared<Lin>], eqs: &Eqs) -> Result<Kept, LinFault>
    ensures exact { IfOk result (λ kept. map part kept ≡ map (normal (rows_of eqs.now)) (map part (reverse bounds.now))) }
    ensures wide { IsErrOf result LinFault.Wide → all_fit (map (normal (rows_of eqs.now)) (map part (reverse bounds.now))) ≡ false }
{
    let mut kept = Kept::new(alloc)?;
    for bound in bounds {
        match kept.add_term(alloc, eqs, bound.get()) {
            Ok(()) => (),
            Err(fault) => return Err(fault),
        }
    }
    Ok(kept)
}
