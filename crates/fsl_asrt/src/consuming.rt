//! Facts and cells, consumed: what is said has to be proved, and what is owned is taken out of the chunks.
ghost use Rattle.std.specs.Prelude.{◌≡◌, IfOk};
ghost use Rattle.fsl_core.specs.logic.Terms.{expr_of};
ghost use Rattle.fsl_core.specs.logic.Deciding.{cond_of};
ghost use Rattle.fsl_core.specs.logic.Producing.{pat_of};
ghost use Rattle.fsl_core.specs.logic.Consuming.{failing, fact_consumed, points_consumed};
ghost use Rattle.fsl_asrt.specs.Branch.{bounds};

use crate::bound::{failing as failed, went_with};
use crate::branch::Bound;
use crate::deciding::demand_cond;
use crate::pointed::points_to;
use crate::take::consume_cell;
use fsl_base::List;
use fsl_chunk::{Env, State};
use fsl_core::{Cond, Expr, Kind, Mood, Pat, Rung};
use std::alloc::{AllocError, Global};

/// The kind by which a fact fails.
fn failing(mood: Mood) -> Kind
    ensures { result ≡ failing mood }
{
    match mood {
        Mood::Pre => Kind::Pre,
        Mood::Post => Kind::Post,
        Mood::Loop => Kind::Loop,
        Mood::Cond => Kind::Cond,
    }
}

/// Consumes a fact. It has no rung.
pub fn fact(
    alloc: Global,
    state: State,
    cond: &Cond,
    env: Env,
    rung: Rung,
    mood: Mood,
) -> Result<List<Bound>, AllocError>
    ensures { IfOk result (λ bs. bounds bs ≡ fact_consumed (cond_of expr_of cond.now) mood rung env state) }
{
    let went = demand_cond(alloc, state, failing(mood), cond, &env)?;
    went_with(alloc, went, env)
}

/// Consumes a share of a cell. It has no mood.
pub fn points(
    alloc: Global,
    state: State,
    at: &Expr,
    share: &Expr,
    pat: &Pat,
    env: Env,
    rung: Rung,
    mood: Mood,
) -> Result<List<Bound>, AllocError>
    ensures { IfOk result (λ bs. bounds bs ≡ points_consumed (expr_of at.now) (expr_of share.now) (pat_of expr_of pat.now) mood rung env state) }
{
    match points_to(alloc, &state, at, share, pat, &env)? {
        Some(p) => consume_cell(alloc, state, p, env, rung),
        None => failed(alloc, Kind::Term),
    }
}
