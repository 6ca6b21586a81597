//! Terms that are read in order: those of several expressions, and those of a location with its invariant.
ghost use Rattle.std.specs.Prelude.{◌≡◌, map, IfOk};
ghost use Rattle.std.specs.Option.{option_map};
ghost use Rattle.fsl_core.specs.declared.verdict.Kind.TheVariants.{Term};
ghost use Rattle.fsl_core.specs.logic.States.{demand_some};
ghost use Rattle.fsl_core.specs.logic.Terms.{expr_of, terms};
ghost use Rattle.fsl_core.specs.logic.Producing.{inst_of, leave_terms};
ghost use Rattle.fsl_chunk.specs.Fits.{leave_of};

use crate::asked::read;
use fsl_base::List;
use fsl_chunk::{Env, Leave, State};
use fsl_core::{Expr, Inst};
use fsl_lin::Lin;
use std::alloc::{AllocError, Global};

/// The terms of expressions, from left to right; `None` where one of them is no term.
#[tactic(auto, using(crate::proofs::LeavesLemmas::terms_wide, crate::proofs::LeavesLemmas::terms_done))]
pub fn all_terms(
    alloc: Global,
    state: &State,
    es: &[Expr],
    env: &Env,
) -> Result<Option<List<Lin>>, AllocError>
    ensures { IfOk result (λ ts. demand_some Term ts state.now ≡ terms (map expr_of es.now) env.now state.now) }
{
    let mut out = List::new(alloc);
    for e in es {
        let Some(t) = read(alloc, state, e, env)? else {
            return Ok(None);
        };
        out.push(t)?;
    }
    Ok(Some(out))
}

/// Leave to use a location under its invariant, in terms; `None` where one of its expressions is no term.
#[tactic(auto, using(crate::proofs::LeavesLemmas::no_address, crate::proofs::LeavesLemmas::no_arguments, crate::proofs::LeavesLemmas::leave_read))]
pub fn leave(
    alloc: Global,
    state: &State,
    at: &Expr,
    inst: &Inst,
    env: &Env,
) -> Result<Option<Leave>, AllocError>
    ensures { IfOk result (λ l. demand_some Term (option_map leave_of l) state.now ≡ leave_terms (expr_of at.now) (inst_of expr_of inst.now) env.now state.now) }
{
    let Some(at) = read(alloc, state, at, env)? else {
        return Ok(None);
    };
    let Some(args) = all_terms(alloc, state, inst.args.as_slice(), env)? else {
        return Ok(None);
    };
    let inv = inst.inv;
    Ok(Some(Leave { at, inv, args }))
}
