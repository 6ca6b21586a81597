//! Branches that carry an environment.
ghost use Rattle.std.specs.Prelude.{◌≡◌, [], ◌∷◌, IfOk};
ghost use Rattle.fsl_core.specs.logic.States.{goes, fails, followed, give};
ghost use Rattle.fsl_chunk.specs.Went.{branches};
ghost use Rattle.fsl_asrt.specs.Branch.{branches as branch_list, bounds};

use crate::branch::{Bound, Branch};
use fsl_base::List;
use fsl_chunk::{Env, State, Went};
use fsl_core::Kind;
use std::alloc::{AllocError, Global};

/// The one branch that goes on.
pub fn going(alloc: Global, state: State, env: Env) -> Result<List<Bound>, AllocError>
    ensures { IfOk result (λ bs. bounds bs ≡ goes env state ∷ []) }
{
    let mut out = List::new(alloc);
    out.push(Bound::Goes { state, env })?;
    Ok(out)
}

/// The one branch that fails.
pub fn failing(alloc: Global, kind: Kind) -> Result<List<Bound>, AllocError>
    ensures { IfOk result (λ bs. bounds bs ≡ fails kind ∷ []) }
{
    let mut out = List::new(alloc);
    out.push(Bound::Fails { kind })?;
    Ok(out)
}

/// What came of a call, with an environment.
pub fn went_with(alloc: Global, went: Went, env: Env) -> Result<List<Bound>, AllocError>
    ensures { IfOk result (λ bs. bounds bs ≡ followed (branches went) (λ _. give env)) }
{
    match went {
        Went::Goes { state } => going(alloc, state, env),
        Went::Infeasible => Ok(List::new(alloc)),
        Went::Fails { kind } => failing(alloc, kind),
    }
}

/// Branches, each with the same environment.
pub fn all_with(alloc: Global, branches: List<Branch>, env: &Env) -> Result<List<Bound>, AllocError>
    ensures { IfOk result (λ bs. bounds bs ≡ followed (branch_list branches) (λ _. give env.now)) }
{
    let mut out = List::new(alloc);
    for branch in branches.into_vec() {
        match branch {
            Branch::Goes { state } => {
                let env = env.fork(alloc)?;
                out.push(Bound::Goes { state, env })?;
            }
            Branch::Fails { kind } => out.push(Bound::Fails { kind })?,
        }
    }
    Ok(out)
}
