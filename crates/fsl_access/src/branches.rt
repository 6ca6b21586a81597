//! Lists of branches of rules that give nothing.
ghost use Rattle.std.specs.Prelude.{◌≡◌, [], ◌∷◌, IfOk};
ghost use Rattle.fsl_core.specs.logic.States.{goes, fails, followed, done, set};
ghost use Rattle.fsl_chunk.specs.Went.{branches as went};
ghost use Rattle.fsl_asrt.specs.Branch.{branches, bounds};

use fsl_asrt::{Bound, Branch};
use fsl_base::{List, TryClone};
use fsl_chunk::{State, Went};
use fsl_core::Kind;
use fsl_lin::Lin;
use std::alloc::{AllocError, Global};

/// The one branch that goes on.
pub fn going(alloc: Global, state: State) -> Result<List<Branch>, AllocError>
    ensures { IfOk result (λ bs. branches bs ≡ goes tt state ∷ []) }
{
    let mut out = List::new(alloc);
    out.push(Branch::Goes { state })?;
    Ok(out)
}

/// The one branch that fails.
pub fn failing(alloc: Global, kind: Kind) -> Result<List<Branch>, AllocError>
    ensures { IfOk result (λ bs. bs ≡ Branch.Fails kind ∷ []) }
{
    let mut out = List::new(alloc);
    out.push(Branch::Fails { kind })?;
    Ok(out)
}

/// What came of a call, as a list.
pub fn listed(alloc: Global, came: Went) -> Result<List<Branch>, AllocError>
    ensures { IfOk result (λ bs. branches bs ≡ went came) }
{
    match came {
        Went::Goes { state } => going(alloc, state),
        Went::Infeasible => Ok(List::new(alloc)),
        Went::Fails { kind } => failing(alloc, kind),
    }
}

/// Branches whose environments are dropped.
pub fn without_env(alloc: Global, bound: List<Bound>) -> Result<List<Branch>, AllocError>
    ensures { IfOk result (λ bs. branches bs ≡ followed (bounds bound) (λ _. done)) }
{
    let mut out = List::new(alloc);
    for branch in bound.into_vec() {
        match branch {
            Bound::Goes { state, env: _env } => out.push(Branch::Goes { state })?,
            Bound::Fails { kind } => out.push(Branch::Fails { kind })?,
        }
    }
    Ok(out)
}

/// On each branch a variable is set.
pub fn set_on_each(
    alloc: Global,
    before: List<Branch>,
    slot: u32,
    t: &Lin,
) -> Result<List<Branch>, AllocError>
    ensures { IfOk result (λ bs. branches bs ≡ followed (branches before) (λ _. set slot t.now)) }
{
    let mut out = List::new(alloc);
    for branch in before.into_vec() {
        match branch {
            Branch::Goes { mut state } => {
                state.set(alloc, slot, t.try_clone(alloc)?)?;
                out.push(Branch::Goes { state })?;
            }
            Branch::Fails { kind } => out.push(Branch::Fails { kind })?,
        }
    }
    Ok(out)
}
