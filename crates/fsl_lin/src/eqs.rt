//! Equations between terms, kept reduced: each has a pivot, a symbol that stands in no other equation.
ghost use Rattle.std.specs.Prelude.{◌≡◌, ℕ, ◌≤◌, ◌^◌, IfOk, OnOk, OnErr, IsErrOf, true, false, [], length};
ghost use Rattle.fsl_lin.specs.Numbers.{Numbers, part, fits, listed};
ghost use Rattle.fsl_lin.specs.Rows.{normal, IsNormalForm, assumed, rows_fit, took};
ghost use Rattle.fsl_lin.specs.Equations.{rows_of};
ghost use Rattle.fsl_lin.specs.Sizes.{IsSize};

use crate::equation::{Equation, copied};
use crate::extend::step;
use crate::fault::LinFault;
use crate::lin::Lin;
use crate::normal::{fill, normal_of};
use crate::step::Step;
use crate::took::Took;
use fsl_base::TryClone;
use std::alloc::{AllocError, Global};
use std::marker::Model;

/// Reduced equations.
#[derive(Debug, Drop)]
pub struct Eqs {
    equations: Vec<Equation>,
}

impl Model for Eqs {
    ghost use Rattle.std.specs.Prelude.{List as Seq};
    ghost use Rattle.fsl_lin.specs.declared.equation.Equation.{Equation};
    ghost use Rattle.fsl_lin.specs.Equations.{AreKept};

    ghost Value = { Seq Equation };

    ghost view = { λ eqs. eqs.equations.items };

    ghost invariant = { λ eqs. AreKept eqs.equations.items };
}

impl Eqs {
    /// No equations. It takes no memory.
    pub fn new(alloc: Global) -> Eqs
        ensures { result ≡ [] }
    {
        Eqs {
            equations: Vec::new(alloc),
        }
    }

    /// The normal form of a term: the one term without pivots that differs from it by a whole-number
    /// combination of the equations.
    pub fn nf(&self, alloc: Global, t: &Lin) -> Result<Lin, LinFault>
        ensures exact { IfOk result (λ n. part n ≡ normal (rows_of self.now) (part t.now)) }
        ensures normal { IsNormalForm (rows_of self.now) (part t.now) (normal (rows_of self.now) (part t.now)) }
        ensures only { (n : Numbers) → IsNormalForm (rows_of self.now) (part t.now) n → n ≡ normal (rows_of self.now) (part t.now) }
        ensures narrow { OnOk result (fits (normal (rows_of self.now) (part t.now)) ≡ true) }
        ensures wide { IsErrOf result LinFault.Wide → fits (normal (rows_of self.now) (part t.now)) ≡ false }
    {
        normal_of(alloc, self.equations.as_slice(), t)
    }

    /// Writes the numbers of the normal form of a term into an array of all places, each exact, whatever its
    /// size. It takes no memory.
    pub fn fill(&self, t: &Lin, numbers: &mut [i128])
        requires { length numbers.old ≡ 513 }
        ensures value { listed numbers.new ≡ normal (rows_of self.now) (part t.now) }
        ensures size { (i : ℕ) → IsSize (2 ^ 124) (listed numbers.new i) }
    {
        fill(self.equations.as_slice(), t, numbers);
    }

    /// Assumes `t = 0`. For want of memory, and where a number of the reduced equations would pass its bound,
    /// the equations stay as they were.
    pub fn assume(&mut self, alloc: Global, t: &Lin) -> Result<Took, LinFault>
        ensures took { IfOk result (λ k. k ≡ took (rows_of self.old) (part t.now)) }
        ensures rows { OnOk result (rows_of self.new ≡ assumed (rows_of self.old) (part t.now)) }
        ensures fit { rows_fit (rows_of self.new) ≡ true }
        ensures kept { OnErr result (self.new ≡ self.old) }
        ensures wide { IsErrOf result LinFault.Wide → rows_fit (assumed (rows_of self.old) (part t.now)) ≡ false }
    {
        match step(alloc, self.equations.as_slice(), t) {
            Ok(Step::More { sym, equations }) => {
                self.equations = equations;
                Ok(Took::Pivot { sym })
            }
            Ok(Step::Same { took }) => Ok(took),
            Err(fault) => Err(fault),
        }
    }
}

impl TryClone for Eqs {
    fn try_clone(&self, alloc: Global) -> Result<Eqs, AllocError>
        ensures { IfOk result (λ copy. copy ≡ self.now) }
    {
        Ok(Eqs {
            equations: copied(alloc, self.equations.as_slice())?,
        })
    }
}
