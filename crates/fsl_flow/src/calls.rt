//! The rules of calls.
ghost use Rattle.std.specs.Prelude.{◌≡◌, [], ◌∷◌, map, slice_get, IfOk, IfSome, Some};
ghost use Rattle.std.specs.List.{list_all};
ghost use Rattle.std.specs.Option.{option_copied};
ghost use Rattle.fsl_core.specs.declared.verdict.Kind.TheVariants as kind;
ghost use Rattle.fsl_core.specs.logic.States.{followed, goes, demand_some, set};
ghost use Rattle.fsl_core.specs.logic.Terms.{expr_of, terms};
ghost use Rattle.fsl_core.specs.logic.Assertions.{asrt_of};
ghost use Rattle.fsl_core.specs.logic.Locations.{setting_of, contract_of};
ghost use Rattle.fsl_core.specs.logic.Calls as rules;
ghost use Rattle.fsl_core.specs.logic.Calls.{gain_post, set_result};
ghost use Rattle.fsl_asrt.specs.Branch.{branches, bounds};
ghost use Rattle.fsl_flow.specs.Calls.{gained, behind_pre};

use crate::says::says;
use fsl_access::{failing, going, padded, set_on_each, without_env};
use fsl_asrt::{Bound, Branch, consume, produce, read};
use fsl_base::{List, TryClone};
use fsl_chunk::{Env, Made, State};
use fsl_core::{Expr, Kind, Mood, Proc, Program, Rung};
use fsl_lin::Lin;
use std::alloc::{AllocError, Global};

/// A call: the terms of its arguments, then its `requires` and `ensures`.
#[tactic(auto, using(crate::proofs::CallsLemmas::not_called))]
pub fn call(
    alloc: Global,
    p: &Program,
    state: State,
    slot: Option<u32>,
    proc: u32,
    args: &[Expr],
) -> Result<List<Branch>, AllocError>
    ensures { IfOk result (λ bs. branches bs ≡ rules.call (setting_of asrt_of p.now) slot proc (map expr_of args.now) state) }
{
    match arguments(alloc, &state, args)? {
        Some(args) => match procedure(p, proc) {
            Some(q) => call_proc(alloc, state, slot, q, args),
            None => going(alloc, state),
        },
        None => failing(alloc, Kind::Term),
    }
}

/// The procedure of a number; `None` exactly where there is no such procedure.
pub fn procedure(p: &Program, number: u32) -> Option<&Proc>
    ensures { option_copied result ≡ slice_get p.now.procs number }
{
    p.procs().get(number as usize)
}

/// The terms of arguments over the variables as they are; `None` where one of them has none.
#[tactic(auto, using(fsl_asrt::proofs::LeavesLemmas::terms_wide, fsl_asrt::proofs::LeavesLemmas::terms_done))]
pub fn arguments(alloc: Global, state: &State, args: &[Expr]) -> Result<Option<Env>, AllocError>
    ensures { IfOk result (λ ts. demand_some kind.Term ts state.now ≡ terms (map expr_of args.now) state.now.env state.now) }
{
    let mut out = Env::new(alloc);
    for e in args {
        let Some(t) = read(alloc, state, e, state.env())? else {
            return Ok(None);
        };
        out.push(alloc, t)?;
    }
    Ok(Some(out))
}

/// A call of a procedure: its `requires` is consumed, and on each branch its `ensures` is produced.
fn call_proc(
    alloc: Global,
    state: State,
    slot: Option<u32>,
    q: &Proc,
    args: Env,
) -> Result<List<Branch>, AllocError>
    ensures { IfOk result (λ bs. branches bs ≡ rules.call_proc slot (Some (contract_of asrt_of q.now)) args state) }
{
    let env = padded(alloc, args, q.slots)?;
    let given = consume(alloc, state, &q.pre, env, Rung::Plain, Mood::Pre)?;
    let named = slot.is_some() || says(&q.post);
    behind_each(alloc, given, slot, named, q)
}

/// What comes behind a `requires`, on each branch.
fn behind_each(
    alloc: Global,
    given: List<Bound>,
    slot: Option<u32>,
    named: bool,
    q: &Proc,
) -> Result<List<Branch>, AllocError>
    ensures { IfOk result (λ bs. branches bs ≡ followed (bounds given) (behind_pre slot named (contract_of asrt_of q.now))) }
{
    let mut out = List::new(alloc);
    for branch in given.into_vec() {
        match branch {
            Bound::Goes { state, env } => {
                let more = behind_pre(alloc, state, slot, named, q, env)?;
                out.append(more)?;
            }
            Bound::Fails { kind } => out.push(Branch::Fails { kind })?,
        }
    }
    Ok(out)
}

/// What comes behind a `requires`. The result is a new symbol where something speaks of it.
#[tactic(auto, using(crate::proofs::CallsLemmas::unnamed, crate::proofs::CallsLemmas::named, crate::proofs::CallsLemmas::not_named))]
fn behind_pre(
    alloc: Global,
    state: State,
    slot: Option<u32>,
    named: bool,
    q: &Proc,
    env: Env,
) -> Result<List<Branch>, AllocError>
    ensures { IfOk result (λ bs. branches bs ≡ behind_pre slot named (contract_of asrt_of q.now) env state) }
{
    if !named {
        return gained(alloc, state, slot, q, env, None);
    }
    match state.new_symbol(alloc)? {
        Made::Goes { state, symbol } => gained(alloc, state, slot, q, env, Some(symbol)),
        Made::Fails { kind } => failing(alloc, kind),
    }
}

/// The `ensures` with a result is produced, and then the variable is set.
fn gained(
    alloc: Global,
    state: State,
    slot: Option<u32>,
    q: &Proc,
    env: Env,
    t: Option<Lin>,
) -> Result<List<Branch>, AllocError>
    ensures { IfOk result (λ bs. branches bs ≡ gained slot (contract_of asrt_of q.now) env t state) }
{
    match t {
        Some(t) => {
            let own = t.try_clone(alloc)?;
            let more = gain_post(alloc, state, q, env, Some(own))?;
            set_each(alloc, more, slot, &t)
        }
        None => gain_post(alloc, state, q, env, None),
    }
}

/// The `ensures` of a procedure is produced, with the result behind the variables.
pub fn gain_post(
    alloc: Global,
    state: State,
    q: &Proc,
    env: Env,
    t: Option<Lin>,
) -> Result<List<Branch>, AllocError>
    ensures { IfOk result (λ bs. branches bs ≡ gain_post (contract_of asrt_of q.now) env t state) }
{
    let mut env = env;
    if let Some(t) = t {
        env.push(alloc, t)?;
    }
    let bound = produce(alloc, state, &q.post, env, Rung::Plain)?;
    without_env(alloc, bound)
}

/// On each branch the variable of a call is set to the result, if there is one.
fn set_each(
    alloc: Global,
    gained: List<Branch>,
    slot: Option<u32>,
    t: &Lin,
) -> Result<List<Branch>, AllocError>
    ensures { IfOk result (λ bs. branches bs ≡ followed (branches gained) (λ _. set_result slot (Some t.now))) }
{
    match slot {
        Some(number) => set_on_each(alloc, gained, number, t),
        None => Ok(gained),
    }
}
