//! Atoms, produced or consumed as the way says.
ghost use Rattle.std.specs.Prelude.{◌≡◌, map, IfOk};
ghost use Rattle.fsl_core.specs.logic.Terms.{expr_of};
ghost use Rattle.fsl_core.specs.logic.Producing.{inst_of};
ghost use Rattle.fsl_asrt.specs.Branch.{bounds};
ghost use Rattle.fsl_asrt.specs.Walk.{init_by, rel_by, acq_by, rmw_by, tok_by, auth_by};

use crate::authority::{consume_auth, produce_auth};
use crate::branch::Bound;
use crate::claims::{
    consume_init, consume_rel, consume_rmw, produce_init, produce_rel, produce_rmw,
};
use crate::permissions::{consume_acq, produce_acq};
use crate::tokens::{consume_tok, produce_tok};
use crate::walk::Way;
use fsl_base::List;
use fsl_chunk::{Env, State};
use fsl_core::{Expr, Inst, Rung};
use std::alloc::{AllocError, Global};

/// That a location has been written.
pub fn init(
    alloc: Global,
    way: Way,
    state: State,
    at: &Expr,
    env: Env,
    rung: Rung,
) -> Result<List<Bound>, AllocError>
    ensures { IfOk result (λ bs. bounds bs ≡ init_by way (expr_of at.now) rung env state) }
{
    match way {
        Way::Produce => produce_init(alloc, state, at, env, rung),
        Way::Consume { mood } => consume_init(alloc, state, at, env, rung, mood),
    }
}

/// Leave to write a location.
pub fn rel(
    alloc: Global,
    way: Way,
    state: State,
    at: &Expr,
    inst: &Inst,
    env: Env,
    rung: Rung,
) -> Result<List<Bound>, AllocError>
    ensures { IfOk result (λ bs. bounds bs ≡ rel_by way (expr_of at.now) (inst_of expr_of inst.now) rung env state) }
{
    match way {
        Way::Produce => produce_rel(alloc, state, at, inst, env, rung),
        Way::Consume { mood } => consume_rel(alloc, state, at, inst, env, rung, mood),
    }
}

/// Leave to acquire one part of a location's invariant.
pub fn acq(
    alloc: Global,
    way: Way,
    state: State,
    at: &Expr,
    inst: &Inst,
    part: u32,
    out: &[Expr],
    env: Env,
    rung: Rung,
) -> Result<List<Bound>, AllocError>
    ensures { IfOk result (λ bs. bounds bs ≡ acq_by way (expr_of at.now) (inst_of expr_of inst.now) part (map expr_of out.now) rung env state) }
{
    match way {
        Way::Produce => produce_acq(alloc, state, at, inst, part, out, env, rung),
        Way::Consume { mood } => consume_acq(alloc, state, at, inst, part, out, env, rung, mood),
    }
}

/// Leave to read-modify-write a location.
pub fn rmw(
    alloc: Global,
    way: Way,
    state: State,
    at: &Expr,
    inst: &Inst,
    env: Env,
    rung: Rung,
) -> Result<List<Bound>, AllocError>
    ensures { IfOk result (λ bs. bounds bs ≡ rmw_by way (expr_of at.now) (inst_of expr_of inst.now) rung env state) }
{
    match way {
        Way::Produce => produce_rmw(alloc, state, at, inst, env, rung),
        Way::Consume { mood } => consume_rmw(alloc, state, at, inst, env, rung, mood),
    }
}

/// Tokens of a bank.
pub fn tok(
    alloc: Global,
    way: Way,
    state: State,
    bank: u32,
    n: &Expr,
    env: Env,
    rung: Rung,
) -> Result<List<Bound>, AllocError>
    ensures { IfOk result (λ bs. bounds bs ≡ tok_by way bank (expr_of n.now) rung env state) }
{
    match way {
        Way::Produce => produce_tok(alloc, state, bank, n, env, rung),
        Way::Consume { mood } => consume_tok(alloc, state, bank, n, env, rung, mood),
    }
}

/// The authority over a bank.
pub fn auth(
    alloc: Global,
    way: Way,
    state: State,
    bank: u32,
    n: &Expr,
    env: Env,
    rung: Rung,
) -> Result<List<Bound>, AllocError>
    ensures { IfOk result (λ bs. bounds bs ≡ auth_by way bank (expr_of n.now) rung env state) }
{
    match way {
        Way::Produce => produce_auth(alloc, state, bank, n, env, rung),
        Way::Consume { mood } => consume_auth(alloc, state, bank, n, env, rung, mood),
    }
}
