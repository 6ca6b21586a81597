//! What a condition asks of a state: its sides, and the two terms that they speak of.
ghost use Rattle.std.specs.Prelude.{◌≡◌, IfOk};
ghost use Rattle.fsl_core.specs.logic.Terms.{expr_of};
ghost use Rattle.fsl_core.specs.logic.States.{give};
ghost use Rattle.fsl_core.specs.logic.Deciding.{cond_of, sides, known, compares};
ghost use Rattle.fsl_asrt.specs.Asked.{asked};

use crate::given::Side;
use crate::sides::{known, sides};
use crate::terms::{constant, term};
use fsl_base::List;
use fsl_chunk::{Env, State};
use fsl_core::{CmpOp, Cond, Expr};
use fsl_lin::{Lin, LinFault};
use std::alloc::{AllocError, Global};

/// The sides of a condition, and the terms that are compared.
#[derive(Drop)]
pub struct Question {
    pub sides: List<Side>,
    pub a: Lin,
    pub b: Lin,
}

/// The term of an expression in a state, if it has one.
pub fn read(alloc: Global, state: &State, e: &Expr, env: &Env) -> Result<Option<Lin>, AllocError>
    ensures { IfOk result (λ t. t ≡ (expr_of e.now).term state.now.facts env.now) }
{
    match term(alloc, state.pure(), env, e) {
        Ok(t) => Ok(Some(t)),
        Err(LinFault::Wide) => Ok(None),
        Err(LinFault::NoMemory) => Err(AllocError),
    }
}

/// What a condition asks; `None` where one of its expressions is no term.
pub fn ask(
    alloc: Global,
    state: &State,
    cond: &Cond,
    env: &Env,
) -> Result<Option<Question>, AllocError>
    ensures { IfOk result (λ q. asked q state.now ≡ sides (cond_of expr_of cond.now) env.now state.now) }
{
    match cond {
        Cond::Yes => answered(alloc, state, true),
        Cond::No => answered(alloc, state, false),
        Cond::Cmp { op, l, r } => compare(alloc, state, *op, l, r, env),
    }
}

/// A question whose answer is known.
fn answered(alloc: Global, state: &State, holds: bool) -> Result<Option<Question>, AllocError>
    ensures { IfOk result (λ q. asked q state.now ≡ give (known holds) state.now) }
{
    let sides = known(alloc, holds)?;
    let a = constant(alloc, 0)?;
    let b = constant(alloc, 0)?;
    Ok(Some(Question { sides, a, b }))
}

/// What a comparison asks.
fn compare(
    alloc: Global,
    state: &State,
    op: CmpOp,
    l: &Expr,
    r: &Expr,
    env: &Env,
) -> Result<Option<Question>, AllocError>
    ensures { IfOk result (λ q. asked q state.now ≡ sides (compares op (expr_of l.now) (expr_of r.now)) env.now state.now) }
{
    let Some(a) = read(alloc, state, l, env)? else {
        return Ok(None);
    };
    let Some(b) = read(alloc, state, r, env)? else {
        return Ok(None);
    };
    let sides = sides(alloc, state, op, &a, &b)?;
    Ok(Some(Question { sides, a, b }))
}
