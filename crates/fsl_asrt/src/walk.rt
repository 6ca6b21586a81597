//! Assertions, produced and consumed part by part on every branch.
ghost use Rattle.std.specs.Prelude.{◌≡◌, IfOk};
ghost use Rattle.fsl_core.specs.logic.States.{followed};
ghost use Rattle.fsl_core.specs.logic.Terms.{expr_of};
ghost use Rattle.fsl_core.specs.logic.Deciding.{cond_of};
ghost use Rattle.fsl_core.specs.logic.Producing.{pat_of};
ghost use Rattle.fsl_core.specs.logic.Assertions.{asrt_of};
ghost use Rattle.fsl_asrt.specs.Branch.{bounds};
ghost use Rattle.fsl_asrt.specs.Walk.{by_way, fact_by, points_by};

use crate::atoms::{acq, auth, init, rel, rmw, tok};
use crate::bound::going;
use crate::branch::{Bound, Decided};
use crate::deciding::decide_cond;
use crate::{consuming, producing};
use fsl_base::List;
use fsl_chunk::{Env, State};
use fsl_core::{Asrt, Cond, Expr, Mood, Pat, Rung};
use std::alloc::{AllocError, Global};

/// Whether an assertion is produced, or consumed, and what for.
#[derive(Clone, Copy, Debug, PartialEq, Eq)]
pub enum Way {
    Produce,
    Consume { mood: Mood },
}

/// Produces an assertion at a rung. The branches carry the environment with its binders set.
pub fn produce(
    alloc: Global,
    state: State,
    a: &Asrt,
    env: Env,
    rung: Rung,
) -> Result<List<Bound>, AllocError>
    ensures { IfOk result (λ bs. bounds bs ≡ (asrt_of a.now).produce rung env state) }
{
    walk(alloc, Way::Produce, state, a, env, rung)
}

/// Consumes an assertion at a rung. The branches carry the environment with its binders set.
pub fn consume(
    alloc: Global,
    state: State,
    a: &Asrt,
    env: Env,
    rung: Rung,
    mood: Mood,
) -> Result<List<Bound>, AllocError>
    ensures { IfOk result (λ bs. bounds bs ≡ (asrt_of a.now).consume mood rung env state) }
{
    walk(alloc, Way::Consume { mood }, state, a, env, rung)
}

/// Produces or consumes an assertion.
#[cycle(walk)]
#[tactic(auto, using(crate::proofs::WalkLemmas::by_choice, crate::proofs::WalkLemmas::one_more, crate::proofs::WalkLemmas::no_more, crate::proofs::WalkLemmas::by_up, crate::proofs::WalkLemmas::by_down))]
fn walk(
    alloc: Global,
    way: Way,
    state: State,
    a: &Asrt,
    env: Env,
    rung: Rung,
) -> Result<List<Bound>, AllocError>
    ensures { IfOk result (λ bs. bounds bs ≡ by_way way (asrt_of a.now) rung env state) }
{
    match a {
        Asrt::Emp => going(alloc, state, env),
        Asrt::Fact { cond } => fact(alloc, way, state, cond, env, rung),
        Asrt::Points { at, share, pat } => points(alloc, way, state, at, share, pat, env, rung),
        Asrt::Init { at } => init(alloc, way, state, at, env, rung),
        Asrt::Rel { at, inst } => rel(alloc, way, state, at, inst, env, rung),
        Asrt::Acq {
            at,
            inst,
            part,
            out,
        } => acq(
            alloc,
            way,
            state,
            at,
            inst,
            *part,
            out.as_slice(),
            env,
            rung,
        ),
        Asrt::RmwAcq { at, inst } => rmw(alloc, way, state, at, inst, env, rung),
        Asrt::Tok { bank, n } => tok(alloc, way, state, *bank, n, env, rung),
        Asrt::Auth { bank, n } => auth(alloc, way, state, *bank, n, env, rung),
        Asrt::Choice { cond, yes, no } => {
            let env = &env;
            let decided = decide_cond(alloc, state, cond, env)?;
            let mut out = List::new(alloc);
            for branch in decided.into_vec() {
                match branch {
                    Decided::Goes { state, holds: true } => {
                        let more = walk(alloc, way, state, yes.get(), env.fork(alloc)?, rung)?;
                        out.append(more)?;
                    }
                    Decided::Goes {
                        state,
                        holds: false,
                    } => {
                        let more = walk(alloc, way, state, no.get(), env.fork(alloc)?, rung)?;
                        out.append(more)?;
                    }
                    Decided::Fails { kind } => out.push(Bound::Fails { kind })?,
                }
            }
            Ok(out)
        }
        Asrt::Up { a: inside } => walk(alloc, way, state, inside.get(), env, Rung::Up),
        Asrt::Down { a: inside } => walk(alloc, way, state, inside.get(), env, Rung::Down),
        Asrt::Both { parts } => {
            let mut branches = going(alloc, state, env)?;
            for part in parts.as_slice() {
                branches = each(alloc, way, branches, part, rung)?;
            }
            Ok(branches)
        }
    }
}

/// An assertion on each branch.
#[cycle(walk)]
fn each(
    alloc: Global,
    way: Way,
    branches: List<Bound>,
    a: &Asrt,
    rung: Rung,
) -> Result<List<Bound>, AllocError>
    ensures { IfOk result (λ bs. bounds bs ≡ followed (bounds branches) (by_way way (asrt_of a.now) rung)) }
{
    let mut out = List::new(alloc);
    for branch in branches.into_vec() {
        match branch {
            Bound::Goes { state, env } => {
                let more = walk(alloc, way, state, a, env, rung)?;
                out.append(more)?;
            }
            Bound::Fails { kind } => out.push(Bound::Fails { kind })?,
        }
    }
    Ok(out)
}

/// A fact.
fn fact(
    alloc: Global,
    way: Way,
    state: State,
    cond: &Cond,
    env: Env,
    rung: Rung,
) -> Result<List<Bound>, AllocError>
    ensures { IfOk result (λ bs. bounds bs ≡ fact_by way (cond_of expr_of cond.now) rung env state) }
{
    match way {
        Way::Produce => producing::fact(alloc, state, cond, env, rung),
        Way::Consume { mood } => consuming::fact(alloc, state, cond, env, rung, mood),
    }
}

/// A share of a cell.
fn points(
    alloc: Global,
    way: Way,
    state: State,
    at: &Expr,
    share: &Expr,
    pat: &Pat,
    env: Env,
    rung: Rung,
) -> Result<List<Bound>, AllocError>
    ensures { IfOk result (λ bs. bounds bs ≡ points_by way (expr_of at.now) (expr_of share.now) (pat_of expr_of pat.now) rung env state) }
{
    match way {
        Way::Produce => producing::points(alloc, state, at, share, pat, env, rung),
        Way::Consume { mood } => consuming::points(alloc, state, at, share, pat, env, rung, mood),
    }
}
