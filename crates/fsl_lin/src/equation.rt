//! One equation.
ghost use Rattle.std.specs.Prelude.{◌≡◌, IfOk};

use crate::lin::Lin;
use crate::sym::Sym;
use fsl_base::TryClone;
use std::alloc::{AllocError, Global};

/// The equation `lin = 0`, in which the symbol has coefficient 1.
#[derive(Debug, Drop)]
pub struct Equation {
    pub sym: Sym,
    pub lin: Lin,
}

impl TryClone for Equation {
    fn try_clone(&self, alloc: Global) -> Result<Equation, AllocError>
        ensures { IfOk result (λ copy. copy ≡ self.now) }
    {
        Ok(Equation {
            sym: self.sym,
            lin: self.lin.try_clone(alloc)?,
        })
    }
}

/// Equal equations.
pub fn copied(alloc: Global, equations: &[Equation]) -> Result<Vec<Equation>, AllocError>
    ensures { IfOk result (λ copies. copies.items ≡ equations.now) }
{
    let mut copies = Vec::new(alloc);
    for equation in equations {
        copies.push(equation.try_clone(alloc)?)?;
    }
    Ok(copies)
}
