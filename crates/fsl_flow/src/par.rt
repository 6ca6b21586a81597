//! The rules of threads that run side by side.
ghost use Rattle.std.specs.Prelude.{◌≡◌, [], ◌++◌, map, slice_get, IfOk};
ghost use Rattle.std.specs.List.{list_all};
ghost use Rattle.std.specs.Option.{option_map};
ghost use Rattle.fsl_core.specs.declared.verdict.Kind.TheVariants as kind;
ghost use Rattle.fsl_core.specs.logic.States.{followed, demand_some};
ghost use Rattle.fsl_core.specs.logic.Terms.{expr_of};
ghost use Rattle.fsl_core.specs.logic.Assertions.{asrt_of};
ghost use Rattle.fsl_core.specs.logic.Locations.{setting_of};
ghost use Rattle.fsl_core.specs.logic.Calls as rules;
ghost use Rattle.fsl_core.specs.logic.Calls.{call_of};
ghost use Rattle.fsl_asrt.specs.Branch.{branches, bounds};
ghost use Rattle.fsl_flow.specs.Calls.{started_with, start_one, join_one, running_of, starts};

use crate::calls::{arguments, gain_post, procedure};
use crate::running::{Running, Started};
use fsl_access::{failing, going, padded};
use fsl_asrt::{Bound, Branch, consume};
use fsl_base::List;
use fsl_chunk::{Env, Made, State};
use fsl_core::{Called, Kind, Mood, Program, Rung};
use std::alloc::{AllocError, Global};

/// Threads side by side: the terms of all calls, then every `requires`, and then every `ensures`.
#[tactic(auto, using(crate::proofs::ParLemmas::par_read, crate::proofs::ParLemmas::par_wide))]
pub fn par(
    alloc: Global,
    p: &Program,
    state: State,
    calls: &[Called],
) -> Result<List<Branch>, AllocError>
    ensures { IfOk result (λ bs. branches bs ≡ rules.par (setting_of asrt_of p.now) (map (call_of expr_of) calls.now) state) }
{
    match with_args(alloc, p, &state, calls)? {
        Some(running) => {
            let started = start_each(alloc, state, running.as_slice())?;
            join_all(alloc, started)
        }
        None => failing(alloc, Kind::Term),
    }
}

/// The procedures of calls with their arguments; `None` where one of these has no term.
#[tactic(auto, using(crate::proofs::ParLemmas::calls_wide, crate::proofs::ParLemmas::calls_done))]
fn with_args<'a>(
    alloc: Global,
    p: &'a Program,
    state: &State,
    calls: &[Called],
) -> Result<Option<List<Running<'a>>>, AllocError>
    ensures { IfOk result (λ xs. demand_some kind.Term (option_map (map running_of) xs) state.now ≡ rules.with_args (setting_of asrt_of p.now) (map (call_of expr_of) calls.now) state.now.env state.now) }
{
    let mut out = List::new(alloc);
    for call in calls {
        let Some(args) = arguments(alloc, state, call.args.as_slice())? else {
            return Ok(None);
        };
        out = add_running(alloc, p, call.proc, args, out)?;
    }
    Ok(Some(out))
}

/// The procedure of a number with its arguments, behind others. Without such a procedure nothing is added.
fn add_running<'a>(
    alloc: Global,
    p: &'a Program,
    number: u32,
    args: Env,
    before: List<Running<'a>>,
) -> Result<List<Running<'a>>, AllocError>
    ensures { IfOk result (λ xs. map running_of xs ≡ map running_of before.entry ++ rules.running (slice_get (setting_of asrt_of p.now).procs number) args []) }
{
    let mut out = before;
    if let Some(proc) = procedure(p, number) {
        let env = padded(alloc, args, proc.slots)?;
        out.push(Running { proc, env })?;
    }
    Ok(out)
}

/// Every `requires` is consumed, one after the other.
#[tactic(auto, using(crate::proofs::ParLemmas::starts_first))]
fn start_each<'a>(
    alloc: Global,
    state: State,
    running: &[Running<'a>],
) -> Result<List<Started<'a>>, AllocError>
    ensures { IfOk result (λ bs. starts bs ≡ rules.start_each (map running_of running.now) state) }
{
    let mut branches = List::new(alloc);
    branches.push(Started::Goes {
        state,
        running: List::new(alloc),
    })?;
    for x in running {
        branches = start_on_each(alloc, branches, x)?;
    }
    Ok(branches)
}

/// On each branch the `requires` of one more procedure is consumed.
fn start_on_each<'a>(
    alloc: Global,
    branches: List<Started<'a>>,
    x: &Running<'a>,
) -> Result<List<Started<'a>>, AllocError>
    ensures { IfOk result (λ bs. starts bs ≡ followed (starts branches.entry) (start_one (running_of x.now))) }
{
    let mut out = List::new(alloc);
    for branch in branches.into_vec() {
        match branch {
            Started::Goes { state, running } => {
                let more = start_one(alloc, state, x, running.as_slice())?;
                out.append(more)?;
            }
            Started::Fails { kind } => out.push(Started::Fails { kind })?,
        }
    }
    Ok(out)
}

/// The `requires` of a procedure is consumed behind others.
fn start_one<'a>(
    alloc: Global,
    state: State,
    x: &Running<'a>,
    before: &[Running<'a>],
) -> Result<List<Started<'a>>, AllocError>
    ensures { IfOk result (λ bs. starts bs ≡ start_one (running_of x.now) (map running_of before.now) state) }
{
    let env = x.env.fork(alloc)?;
    let given = consume(alloc, state, &x.proc.pre, env, Rung::Plain, Mood::Pre)?;
    started_with(alloc, given, x, before)
}

/// Branches that carry a procedure behind others.
fn started_with<'a>(
    alloc: Global,
    given: List<Bound>,
    x: &Running<'a>,
    before: &[Running<'a>],
) -> Result<List<Started<'a>>, AllocError>
    ensures { IfOk result (λ bs. starts bs ≡ followed (bounds given) (started_with (running_of x.now) (map running_of before.now))) }
{
    let mut out = List::new(alloc);
    for branch in given.into_vec() {
        match branch {
            Bound::Goes { state, env } => {
                let mut running = copies(alloc, before)?;
                running.push(Running { proc: x.proc, env })?;
                out.push(Started::Goes { state, running })?;
            }
            Bound::Fails { kind } => out.push(Started::Fails { kind })?,
        }
    }
    Ok(out)
}

/// The same procedures for another branch.
fn copies<'a>(alloc: Global, running: &[Running<'a>]) -> Result<List<Running<'a>>, AllocError>
    ensures { IfOk result (λ xs. map running_of xs ≡ map running_of running.now) }
{
    let mut out = List::new(alloc);
    for x in running {
        let env = x.env.fork(alloc)?;
        out.push(Running { proc: x.proc, env })?;
    }
    Ok(out)
}

/// On each branch every `ensures` is produced.
fn join_all(alloc: Global, started: List<Started<'_>>) -> Result<List<Branch>, AllocError>
    ensures { IfOk result (λ bs. branches bs ≡ followed (starts started.entry) rules.join_each) }
{
    let mut out = List::new(alloc);
    for branch in started.into_vec() {
        match branch {
            Started::Goes { state, running } => {
                let more = join_each(alloc, state, running.as_slice())?;
                out.append(more)?;
            }
            Started::Fails { kind } => out.push(Branch::Fails { kind })?,
        }
    }
    Ok(out)
}

/// Every `ensures` is produced, one after the other.
#[tactic(auto, using(crate::proofs::ParLemmas::joins_first))]
fn join_each(
    alloc: Global,
    state: State,
    running: &[Running<'_>],
) -> Result<List<Branch>, AllocError>
    ensures { IfOk result (λ bs. branches bs ≡ rules.join_each (map running_of running.now) state) }
{
    let mut branches = going(alloc, state)?;
    for x in running {
        branches = join_on_each(alloc, branches, x)?;
    }
    Ok(branches)
}

/// On each branch the `ensures` of one more procedure is produced.
fn join_on_each(
    alloc: Global,
    joined: List<Branch>,
    x: &Running<'_>,
) -> Result<List<Branch>, AllocError>
    ensures { IfOk result (λ bs. branches bs ≡ followed (branches joined) (λ _. join_one (running_of x.now))) }
{
    let mut out = List::new(alloc);
    for branch in joined.into_vec() {
        match branch {
            Branch::Goes { state } => out.append(join_one(alloc, state, x)?)?,
            Branch::Fails { kind } => out.push(Branch::Fails { kind })?,
        }
    }
    Ok(out)
}

/// The `ensures` of a procedure is produced, with a new symbol for its result.
#[tactic(auto, using(fsl_asrt::proofs::Laws::then_goes, fsl_asrt::proofs::Laws::then_fails))]
fn join_one(alloc: Global, state: State, x: &Running<'_>) -> Result<List<Branch>, AllocError>
    ensures { IfOk result (λ bs. branches bs ≡ join_one (running_of x.now) state) }
{
    match state.new_symbol(alloc)? {
        Made::Goes { state, symbol } => {
            let env = x.env.fork(alloc)?;
            gain_post(alloc, state, x.proc, env, Some(symbol))
        }
        Made::Fails { kind } => failing(alloc, kind),
    }
}
