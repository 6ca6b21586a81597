//! Copies of expressions and conditions.
ghost use Rattle.std.specs.Prelude.{◌≡◌, IfOk};

use crate::expr::{Cond, Expr, Part};
use fsl_base::{Boxed, List, TryClone};
use std::alloc::{AllocError, Global};

impl TryClone for Expr {
    fn try_clone(&self, alloc: Global) -> Result<Expr, AllocError>
        ensures { IfOk result (λ copy. copy ≡ self.now) }
    {
        match self {
            Expr::Const { n } => Ok(Expr::Const { n: *n }),
            Expr::Var { slot } => Ok(Expr::Var { slot: *slot }),
            Expr::Result_ => Ok(Expr::Result_),
            Expr::Neg { e } => {
                let e = e.get().try_clone(alloc)?;
                let e = Boxed::new(alloc, e)?;
                Ok(Expr::Neg { e })
            }
            Expr::Sum { parts } => {
                let mut copies = List::new(alloc);
                for part in parts.as_slice() {
                    let e = part.e.try_clone(alloc)?;
                    copies.push(Part {
                        minus: part.minus,
                        e,
                    })?;
                }
                Ok(Expr::Sum { parts: copies })
            }
            Expr::Product { parts } => {
                let mut copies = List::new(alloc);
                for factor in parts.as_slice() {
                    copies.push(factor.try_clone(alloc)?)?;
                }
                Ok(Expr::Product { parts: copies })
            }
        }
    }
}

impl TryClone for Part {
    fn try_clone(&self, alloc: Global) -> Result<Part, AllocError>
        ensures { IfOk result (λ copy. copy ≡ self.now) }
    {
        let e = self.e.try_clone(alloc)?;
        Ok(Part {
            minus: self.minus,
            e,
        })
    }
}

impl TryClone for Cond {
    fn try_clone(&self, alloc: Global) -> Result<Cond, AllocError>
        ensures { IfOk result (λ copy. copy ≡ self.now) }
    {
        match self {
            Cond::Yes => Ok(Cond::Yes),
            Cond::No => Ok(Cond::No),
            Cond::Cmp { op, l, r } => {
                let l = l.try_clone(alloc)?;
                let r = r.try_clone(alloc)?;
                Ok(Cond::Cmp { op: *op, l, r })
            }
        }
    }
}
