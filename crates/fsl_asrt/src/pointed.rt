//! The terms of a points-to: its cell, its share, and what its pattern says of the value.
ghost use Rattle.std.specs.Prelude.{◌≡◌, [], ◌∷◌, IfOk};
ghost use Rattle.fsl_lin.specs.Combination.{Combination};
ghost use Rattle.fsl_core.specs.logic.States as states;
ghost use Rattle.fsl_core.specs.logic.States.{Rule, demand_some};
ghost use Rattle.fsl_core.specs.logic.Terms.{expr_of};
ghost use Rattle.fsl_core.specs.logic.Producing.{Wanted, wanted, pat_of};
ghost use Rattle.fsl_core.specs.declared.verdict.Kind.TheVariants.{Term};
ghost use Rattle.fsl_asrt.specs.Pointed.{pointed, with_terms, wanted_read};

use crate::asked::read;
use fsl_chunk::{Env, State};
use fsl_core::{Expr, Pat};
use fsl_lin::Lin;
use std::alloc::{AllocError, Global};

/// What a pattern says of a value.
#[derive(Drop)]
pub enum Value {
    Any,
    Bind { slot: u32 },
    Is { t: Lin },
}

/// A points-to in terms.
#[derive(Drop)]
pub struct PointsTo {
    pub at: Lin,
    pub share: Lin,
    pub value: Value,
}

/// A pattern in terms; `None` where its expression is no term.
pub fn value_of(
    alloc: Global,
    state: &State,
    pat: &Pat,
    env: &Env,
) -> Result<Option<Value>, AllocError>
    ensures { IfOk result (λ v. wanted_read v state.now ≡ wanted (pat_of expr_of pat.now) env.now state.now) }
{
    match pat {
        Pat::Any => Ok(Some(Value::Any)),
        Pat::Bind { slot } => Ok(Some(Value::Bind { slot: *slot })),
        Pat::Is { e } => match read(alloc, state, e, env)? {
            Some(t) => Ok(Some(Value::Is { t })),
            None => Ok(None),
        },
    }
}

/// A points-to in terms, made from left to right; `None` where one of its expressions is no term.
pub fn points_to(
    alloc: Global,
    state: &State,
    at: &Expr,
    share: &Expr,
    pat: &Pat,
    env: &Env,
) -> Result<Option<PointsTo>, AllocError>
    ensures { (after : Combination → Combination → Wanted Combination → Rule states.Env) → IfOk result (λ p. pointed p after state.now ≡ with_terms (expr_of at.now) (expr_of share.now) (pat_of expr_of pat.now) env.now after state.now) }
{
    let Some(at) = read(alloc, state, at, env)? else {
        return Ok(None);
    };
    let Some(share) = read(alloc, state, share, env)? else {
        return Ok(None);
    };
    let Some(value) = value_of(alloc, state, pat, env)? else {
        return Ok(None);
    };
    Ok(Some(PointsTo { at, share, value }))
}
