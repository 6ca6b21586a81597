//! What holds at some round of a loop: its invariant, where the variables that its body sets have new symbols.
ghost use Rattle.std.specs.Prelude.{◌≡◌, IfOk};
ghost use Rattle.fsl_core.specs.logic.States.{followed};
ghost use Rattle.fsl_core.specs.logic.Terms.{expr_of};
ghost use Rattle.fsl_core.specs.logic.Deciding.{cond_of, assume_cond};
ghost use Rattle.fsl_core.specs.logic.Assertions.{asrt_of};
ghost use Rattle.fsl_core.specs.logic.Slots.{renew};
ghost use Rattle.fsl_core.specs.logic.Paths.{round};
ghost use Rattle.fsl_chunk.specs.Went as chunks;
ghost use Rattle.fsl_asrt.specs.Branch.{branches, bounds, decided as decisions};
ghost use Rattle.fsl_flow.specs.Looping.{decided_here, produced, body_round};
ghost use Rattle.fsl_flow.specs.Sets.{stmts_set};

use crate::continuation::Loop;
use crate::sets::set_among;
use fsl_access::failing;
use fsl_asrt::{Bound, Branch, Decided, assume_cond, decide_cond, produce};
use fsl_base::List;
use fsl_chunk::{Env, Made, State, Went};
use fsl_core::{Cond, Rung, Stmt};
use std::alloc::{AllocError, Global};

/// Decides a condition over the variables as they are.
#[tactic(auto, using(crate::proofs::LoopingLemmas::decided_so))]
pub fn decide(alloc: Global, state: State, cond: &Cond) -> Result<List<Decided>, AllocError>
    ensures { IfOk result (λ ds. decisions ds ≡ decided_here (cond_of expr_of cond.now) state) }
{
    let env = state.env().fork(alloc)?;
    decide_cond(alloc, state, cond, &env)
}

/// Of the declared slots, those that statements set get new symbols, in ascending order.
#[tactic(auto, using(crate::proofs::LoopingLemmas::renew_goes, crate::proofs::LoopingLemmas::renew_skips, crate::proofs::LoopingLemmas::renew_fails))]
fn renew(alloc: Global, state: State, declared: u64, body: &[Stmt]) -> Result<Went, AllocError>
    ensures { IfOk result (λ went. chunks.branches went ≡ renew declared (stmts_set body.now) state) }
{
    let mut state = state;
    for number in 0..declared {
        if let Some(slot) = set_among(body, number) {
            state = match state.new_symbol(alloc)? {
                Made::Goes { mut state, symbol } => {
                    state.set(alloc, slot, symbol)?;
                    state
                }
                Made::Fails { kind } => return Ok(Went::Fails { kind }),
            };
        }
    }
    Ok(Went::Goes { state })
}

/// On each branch a condition is assumed to have this answer. Binders of the invariant are not seen in it.
fn assume_each(
    alloc: Global,
    bound: List<Bound>,
    answer: bool,
    cond: &Cond,
    env: &Env,
) -> Result<List<Branch>, AllocError>
    ensures { IfOk result (λ bs. branches bs ≡ followed (bounds bound) (λ _. assume_cond answer (cond_of expr_of cond.now) env.now)) }
{
    let mut out = List::new(alloc);
    for branch in bound.into_vec() {
        match branch {
            Bound::Goes { state, env: _own } => {
                let more = assume_cond(alloc, state, answer, cond, env)?;
                out.append(more)?;
            }
            Bound::Fails { kind } => out.push(Branch::Fails { kind })?,
        }
    }
    Ok(out)
}

/// The invariant is produced, and what the condition then says is assumed.
#[tactic(auto, using(crate::proofs::LoopingLemmas::produced_so))]
fn produced(
    alloc: Global,
    state: State,
    x: &Loop<'_>,
    answer: bool,
) -> Result<List<Branch>, AllocError>
    ensures { IfOk result (λ bs. branches bs ≡ produced (asrt_of x.now.inv.now) answer (cond_of expr_of x.now.cond.now) state) }
{
    let env = state.env().fork(alloc)?;
    let own = env.fork(alloc)?;
    let bound = produce(alloc, state, x.inv, own, Rung::Plain)?;
    assume_each(alloc, bound, answer, x.cond, &env)
}

/// What holds at some round, where the condition has this answer.
#[tactic(auto, using(crate::proofs::LoopingLemmas::round_goes, crate::proofs::LoopingLemmas::round_infeasible, crate::proofs::LoopingLemmas::round_fails))]
pub fn at_round(
    alloc: Global,
    state: State,
    x: &Loop<'_>,
    answer: bool,
) -> Result<List<Branch>, AllocError>
    ensures { IfOk result (λ bs. branches bs ≡ round answer (cond_of expr_of x.now.cond.now) (asrt_of x.now.inv.now) x.now.declared (stmts_set x.now.body.now) state) }
{
    match renew(alloc, state, x.declared, x.body)? {
        Went::Goes { state } => produced(alloc, state, x, answer),
        Went::Infeasible => Ok(List::new(alloc)),
        Went::Fails { kind } => failing(alloc, kind),
    }
}

/// What holds at some round in which the body runs, on a path of its own that owns nothing but the invariant.
#[tactic(auto, using(crate::proofs::LoopingLemmas::body_so))]
pub fn at_body(alloc: Global, state: &State, x: &Loop<'_>) -> Result<List<Branch>, AllocError>
    ensures { IfOk result (λ bs. branches bs ≡ body_round (cond_of expr_of x.now.cond.now) (asrt_of x.now.inv.now) x.now.declared (stmts_set x.now.body.now) state.now) }
{
    let mut own = state.fork(alloc)?;
    own.drop_chunks(alloc)?;
    at_round(alloc, own, x, true)
}
