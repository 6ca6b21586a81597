//! Chunks that say that a location has been written.
ghost use Rattle.std.specs.Prelude.{◌≡◌, IfOk, is_some};
ghost use Rattle.fsl_core.specs.logic.States.{followed};
ghost use Rattle.fsl_core.specs.logic.Chunks.{first, init_at};
ghost use Rattle.fsl_core.specs.logic.Joining.{produce_init};
ghost use Rattle.fsl_asrt.specs.Branch.{branches};

use crate::branches::listed;
use fsl_asrt::{Branch, add_init};
use fsl_base::{List, TryClone};
use fsl_chunk::{State, Want};
use fsl_core::Rung;
use fsl_lin::Lin;
use std::alloc::{AllocError, Global};

/// Whether it is said that a location has been written.
#[tactic(auto, using(crate::proofs::LocationLemmas::number_found))]
pub fn is_initial(state: &State, rung: Rung, at: &Lin) -> bool
    ensures { result ≡ is_some (first (init_at rung at.now state.now.facts) state.now.chunks) }
{
    state.find(&Want::Init { rung, at }).is_some()
}

/// A location has been written.
fn written(alloc: Global, state: State, rung: Rung, at: &Lin) -> Result<List<Branch>, AllocError>
    ensures { IfOk result (λ bs. branches bs ≡ produce_init rung at.now state) }
{
    let at = at.try_clone(alloc)?;
    let came = add_init(alloc, state, rung, at)?;
    listed(alloc, came)
}

/// On each branch a location has been written.
pub fn init_on_each(
    alloc: Global,
    before: List<Branch>,
    rung: Rung,
    at: &Lin,
) -> Result<List<Branch>, AllocError>
    ensures { IfOk result (λ bs. branches bs ≡ followed (branches before) (λ _. produce_init rung at.now)) }
{
    let mut out = List::new(alloc);
    for branch in before.into_vec() {
        match branch {
            Branch::Goes { state } => {
                let more = written(alloc, state, rung, at)?;
                out.append(more)?;
            }
            Branch::Fails { kind } => out.push(Branch::Fails { kind })?,
        }
    }
    Ok(out)
}
