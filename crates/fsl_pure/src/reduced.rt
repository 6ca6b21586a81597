//! Reduced equations, and beside them the symbols that are their pivots.
ghost use Rattle.std.specs.Prelude.{◌≡◌, ◌<◌, [], true, false, length, vec_capacity, IfOk, OnOk, OnErr, IsErrOf};
ghost use Rattle.fsl_lin.specs.Numbers.{part};
ghost use Rattle.fsl_lin.specs.Rows.{AtPivots, assumed, rows_fit, took};
ghost use Rattle.fsl_lin.specs.Equations.{rows_of};
ghost use Rattle.fsl_pure.specs.Nodes.{IsFree, IsLevel, among, noted};

use crate::sharing::push;
use fsl_base::TryClone;
use fsl_lin::{Eqs, Lin, LinFault, Sym, Took};
use std::alloc::{AllocError, Global};
use std::marker::Model;

/// Reduced equations. Whether a symbol is a pivot is asked far more often than an equation is assumed.
#[derive(Drop)]
pub struct Reduced {
    eqs: Eqs,
    pivots: Vec<Sym>,
}

impl Model for Reduced {
    ghost use Rattle.std.specs.Prelude.{List as Seq};
    ghost use Rattle.fsl_lin.specs.declared.equation.Equation.{Equation};
    ghost use Rattle.fsl_lin.specs.Equations.{rows_of};
    ghost use Rattle.fsl_lin.specs.Rows.{AtPivots};
    ghost use Rattle.fsl_pure.specs.Nodes.{IsAmong};

    ghost Value = { Seq Equation };

    ghost view = { λ reduced. reduced.eqs };

    ghost invariant = { λ reduced. AtPivots (IsAmong reduced.pivots.items) (rows_of reduced.eqs) };
}

impl Reduced {
    /// No equations. It takes no memory.
    pub fn new(alloc: Global) -> Reduced
        ensures { result ≡ [] }
    {
        Reduced {
            eqs: Eqs::new(alloc),
            pivots: Vec::new(alloc),
        }
    }

    /// The equations.
    pub fn get(&self) -> &Eqs
        ensures { result.now ≡ self.now }
    {
        &self.eqs
    }

    /// Assumes `t = 0`. For want of memory, and where a number of the reduced equations would pass its bound,
    /// the equations stay as they were.
    pub fn assume(&mut self, alloc: Global, t: &Lin) -> Result<Took, LinFault>
        ensures took { IfOk result (λ k. k ≡ took (rows_of self.old) (part t.now)) }
        ensures rows { OnOk result (rows_of self.new ≡ assumed (rows_of self.old) (part t.now)) }
        ensures fit { OnOk result (rows_fit (rows_of self.new) ≡ true) }
        ensures kept { OnErr result (self.new ≡ self.old) }
        ensures wide { IsErrOf result LinFault.Wide → rows_fit (assumed (rows_of self.old) (part t.now)) ≡ false }
    {
        self.pivots.reserve(1)?;
        match self.eqs.assume(alloc, t) {
            Ok(took) => {
                note(&mut self.pivots, took);
                Ok(took)
            }
            Err(fault) => Err(fault),
        }
    }

    /// Whether the difference of two nodes has no pivot. It takes no memory, and `false` says nothing.
    pub fn level(&self, x: u32, y: u32) -> bool
        ensures { result ≡ true → AtPivots (IsLevel x y) (rows_of self.now) }
    {
        x == y || self.is_free(x) && self.is_free(y)
    }

    /// Whether a node is that of no pivot.
    fn is_free(&self, node: u32) -> bool
        ensures { result ≡ true → AtPivots (IsFree node) (rows_of self.now) }
    {
        node == 0 || !among(node - 1, self.pivots.as_slice())
    }
}

impl TryClone for Reduced {
    fn try_clone(&self, alloc: Global) -> Result<Reduced, AllocError>
        ensures { IfOk result (λ copy. copy ≡ self.now) }
    {
        Ok(Reduced {
            eqs: self.eqs.try_clone(alloc)?,
            pivots: Vec::from_slice(alloc, self.pivots.as_slice())?,
        })
    }
}

/// Adds the pivot of an equation that has one.
fn note(pivots: &mut Vec<Sym>, took: Took)
    requires { length pivots.old.items < vec_capacity pivots.old }
    ensures { pivots.new.items ≡ noted took pivots.old.items }
{
    match took {
        Took::Pivot { sym } => push(pivots, sym),
        Took::Trivial | Took::Absurd | Took::NoPivot => (),
    }
}

/// Whether a number is that of one of these symbols.
fn among(number: u32, symbols: &[Sym]) -> bool
    ensures { result ≡ among number symbols.now }
{
    for symbol in symbols {
        if symbol.0 == number {
            return true;
        }
    }
    false
}
