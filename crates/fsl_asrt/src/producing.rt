//! Facts and cells, produced: what is said is assumed, and what is owned is added to the chunks.
ghost use Rattle.std.specs.Prelude.{◌≡◌, Some, IfOk, slice_set};
ghost use Rattle.fsl_core.specs.logic.Terms.{expr_of};
ghost use Rattle.fsl_core.specs.logic.Deciding.{cond_of};
ghost use Rattle.fsl_core.specs.logic.Producing.{add_wanted, pat_of, fact_produced, points_produced};
ghost use Rattle.fsl_asrt.specs.Branch.{bounds};
ghost use Rattle.fsl_asrt.specs.Pointed.{wanted_of, produced, added};

use crate::bound::{all_with, failing, went_with};
use crate::branch::Bound;
use crate::deciding::assume_cond;
use crate::join::{add_cell, assume_share};
use crate::pointed::{PointsTo, Value, points_to};
use fsl_base::{List, TryClone};
use fsl_chunk::{Env, Made, State, Went};
use fsl_core::{Cond, Expr, Kind, Pat, Rung};
use fsl_lin::Lin;
use std::alloc::{AllocError, Global};

/// Produces a fact. It has no rung.
pub fn fact(
    alloc: Global,
    state: State,
    cond: &Cond,
    env: Env,
    rung: Rung,
) -> Result<List<Bound>, AllocError>
    ensures { IfOk result (λ bs. bounds bs ≡ fact_produced (cond_of expr_of cond.now) rung env state) }
{
    let branches = assume_cond(alloc, state, true, cond, &env)?;
    all_with(alloc, branches, &env)
}

/// Produces a share of a cell.
pub fn points(
    alloc: Global,
    state: State,
    at: &Expr,
    share: &Expr,
    pat: &Pat,
    env: Env,
    rung: Rung,
) -> Result<List<Bound>, AllocError>
    ensures { IfOk result (λ bs. bounds bs ≡ points_produced (expr_of at.now) (expr_of share.now) (pat_of expr_of pat.now) rung env state) }
{
    match points_to(alloc, &state, at, share, pat, &env)? {
        Some(p) => produce_cell(alloc, state, p, env, rung),
        None => failing(alloc, Kind::Term),
    }
}

/// Assumes that a share is one, and adds it.
fn produce_cell(
    alloc: Global,
    state: State,
    p: PointsTo,
    env: Env,
    rung: Rung,
) -> Result<List<Bound>, AllocError>
    ensures { IfOk result (λ bs. bounds bs ≡ produced rung p env state) }
{
    match assume_share(alloc, state, &p.share)? {
        Went::Goes { state } => add_wanted(alloc, state, p, env, rung),
        Went::Infeasible => Ok(List::new(alloc)),
        Went::Fails { kind } => failing(alloc, kind),
    }
}

/// Adds a share of a cell, with the value of a pattern. A binder is a new symbol.
fn add_wanted(
    alloc: Global,
    state: State,
    p: PointsTo,
    env: Env,
    rung: Rung,
) -> Result<List<Bound>, AllocError>
    ensures { IfOk result (λ bs. bounds bs ≡ add_wanted rung p.at p.share (wanted_of p.value) env state) }
{
    let PointsTo { at, share, value } = p;
    match value {
        Value::Any => add_with(alloc, state, at, share, None, env, rung),
        Value::Is { t } => add_with(alloc, state, at, share, Some(t), env, rung),
        Value::Bind { slot } => match state.new_symbol(alloc)? {
            Made::Goes { state, symbol } => bind(alloc, state, at, share, slot, symbol, env, rung),
            Made::Fails { kind } => failing(alloc, kind),
        },
    }
}

/// Adds a share of a cell.
fn add_with(
    alloc: Global,
    state: State,
    at: Lin,
    share: Lin,
    value: Option<Lin>,
    env: Env,
    rung: Rung,
) -> Result<List<Bound>, AllocError>
    ensures { IfOk result (λ bs. bounds bs ≡ added rung (record { at = at; share = share; value = value }) env state) }
{
    let went = add_cell(alloc, state, rung, at, share, value)?;
    went_with(alloc, went, env)
}

/// Adds a share of a cell whose value is a new symbol, and sets the slot to it.
fn bind(
    alloc: Global,
    state: State,
    at: Lin,
    share: Lin,
    slot: u32,
    symbol: Lin,
    env: Env,
    rung: Rung,
) -> Result<List<Bound>, AllocError>
    ensures { IfOk result (λ bs. bounds bs ≡ added rung (record { at = at; share = share; value = Some symbol }) (slice_set env slot symbol) state) }
{
    let value = symbol.try_clone(alloc)?;
    let mut env = env;
    env.set(alloc, slot, symbol)?;
    add_with(alloc, state, at, share, Some(value), env, rung)
}
