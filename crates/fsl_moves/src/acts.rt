//! The moves of statements: how each ends.
ghost use Rattle.std.specs.Prelude.{◌≡◌, true, List as Seq, IfOk, OnErr};
ghost use Rattle.fsl_core.specs.declared.act.Act.TheOpen.{Act-F};
ghost use Rattle.fsl_core.specs.declared.act.Act.TheViews.{out-Act};
ghost use Rattle.fsl_core.specs.declared.act.Stmt.{Stmt};
ghost use Rattle.fsl_core.specs.declared.assertion.Asrt.{Asrt};
ghost use Rattle.fsl_core.specs.Programs.{Program};
ghost use Rattle.fsl_moves.specs.Done.{Ends};
ghost use Rattle.fsl_moves.specs.Moves.{CanNumber, IsNumbered, act_grows};
ghost use Rattle.fsl_moves.specs.Turn.{is_entry};

use crate::accesses::{added, allocated, exchanged, freed, loaded, set, shown, stored, swapped};
use crate::calls::{are_possible, arguments, entered};
use crate::config::{Arm, Children};
use crate::done::{Done, Turn};
use crate::lists::numbers;
use crate::needs::kind_at;
use fsl_base::List;
use fsl_core::{Act, AllocKind, Called, Cond, Expr, Label, Need, Program, Reply, eval, holds};
use std::alloc::{AllocError, Global};

fn assigned(env: &mut List<i64>, slot: u32, e: &Expr) -> Turn
    ensures { (p : Program) (reply : Reply) → Ends p (Act-F.Set slot e.now) env.old reply env.new (Done.Turns result) }
{
    match eval(e, env) {
        Some(value) => {
            set(env, slot, value);
            Turn::Goes { label: None }
        }
        None => Turn::Halts { label: None },
    }
}

/// The end where a number leaves its range.
fn halted() -> Done
    ensures { result ≡ Done.Turns (Turn.Halts None) }
{
    Done::Turns {
        turn: Turn::Halts { label: None },
    }
}

fn branched(cond: &Cond, env: &List<i64>) -> Done
    ensures done { (p : Program) (reply : Reply) (a b : Seq Stmt) → Ends p (Act-F.If cond.now a b) env.now reply env.now result }
    ensures numbered { IsNumbered result }
{
    match holds(cond, env) {
        Some(true) => Done::Enters { arm: Arm::Yes },
        Some(false) => Done::Enters { arm: Arm::No },
        None => halted(),
    }
}

fn repeated(cond: &Cond, env: &List<i64>) -> Done
    ensures done { (p : Program) (reply : Reply) (inv : Asrt) (body : Seq Stmt) → Ends p (Act-F.While cond.now inv body) env.now reply env.now result }
    ensures numbered { IsNumbered result }
{
    match holds(cond, env) {
        Some(true) => Done::Enters { arm: Arm::Body },
        Some(false) => Done::Turns {
            turn: Turn::Goes { label: None },
        },
        None => halted(),
    }
}

fn asserted(cond: &Cond, env: &List<i64>) -> Turn
    ensures { (p : Program) (reply : Reply) → Ends p (Act-F.Assert cond.now) env.now reply env.now (Done.Turns result) }
{
    match holds(cond, env) {
        Some(true) => Turn::Goes { label: None },
        Some(false) => Turn::Fails,
        None => Turn::Halts { label: None },
    }
}

fn printed(e: &Expr, env: &List<i64>, reply: &Reply) -> Turn
    ensures { (p : Program) → Ends p (Act-F.Print e.now) env.now reply.now env.now (Done.Turns result) }
{
    match eval(e, env) {
        Some(value) => shown(&Need::Print { value }, reply),
        None => Turn::Halts { label: None },
    }
}

fn returned(e: &Expr, env: &List<i64>) -> Turn
    ensures { (p : Program) (reply : Reply) → Ends p (Act-F.Return e.now) env.now reply env.now (Done.Turns result) }
{
    match eval(e, env) {
        Some(value) => Turn::Returns { value },
        None => Turn::Halts { label: None },
    }
}

fn called(
    alloc: Global,
    p: &Program,
    target: Option<u32>,
    proc: u32,
    args: &List<Expr>,
    env: &List<i64>,
) -> Result<Done, AllocError>
    ensures done { (reply : Reply) → IfOk result (Ends p.now (Act-F.Call target proc args.now) env.now reply env.now) }
    ensures numbered { IfOk result IsNumbered }
{
    let Some(args) = arguments(alloc, p, proc, args.as_slice(), env)? else {
        return Ok(halted());
    };
    match entered(alloc, p, proc, args, target)? {
        Some(callee) => Ok(Done::Calls { callee }),
        None => Ok(halted()),
    }
}

fn forked(
    alloc: Global,
    p: &Program,
    calls: &List<Called>,
    env: &List<i64>,
    reply: &Reply,
) -> Result<Done, AllocError>
    requires { CanNumber p.now (Act-F.Par calls.now) env.now reply.now }
    ensures done { IfOk result (Ends p.now (Act-F.Par calls.now) env.now reply.now env.now) }
    ensures numbered { IfOk result IsNumbered }
{
    if !are_possible(p, calls.as_slice(), env) {
        return Ok(halted());
    }
    let Reply::Threads { first } = reply else {
        return Ok(Done::Turns { turn: Turn::Fails });
    };
    let count = calls.len() as u32;
    let children = Children {
        first: *first,
        count,
    };
    let label = Label::Fork {
        children: numbers(alloc, children)?,
    };
    Ok(Done::Starts { children, label })
}

/// Makes a bank, whose variable is 0.
fn banked(env: &mut List<i64>, slot: u32) -> Turn
    ensures { (p : Program) (reply : Reply) → Ends p (Act-F.Bank slot) env.old reply env.new (Done.Turns result) }
{
    set(env, slot, 0);
    Turn::Goes { label: None }
}

fn turns(turn: Turn) -> Result<Done, AllocError>
    ensures { result ≡ Ok (Done.Turns turn) }
{
    Ok(Done::Turns { turn })
}

/// Makes the move of a statement: a variable is set in place. For want of memory nothing changes.
pub fn carried_out(
    alloc: Global,
    p: &Program,
    act: &Act,
    env: &mut List<i64>,
    reply: &Reply,
) -> Result<Done, AllocError>
    requires { CanNumber p.now (out-Act act.now) env.old reply.now }
    ensures done { IfOk result (Ends p.now (out-Act act.now) env.old reply.now env.new) }
    ensures numbered { IfOk result IsNumbered }
    ensures entry { IfOk result (λ done. is_entry done ≡ true → act_grows (out-Act act.now) ≡ true) }
    ensures unchanged { IfOk result (λ done. is_entry done ≡ true → env.new ≡ env.old) }
    ensures memory { OnErr result (act_grows (out-Act act.now) ≡ true) }
    ensures kept { OnErr result (env.new ≡ env.old) }
{
    match act {
        Act::Set { slot, e } => turns(assigned(env, *slot, e)),
        Act::AllocNa { slot } => turns(allocated(env, *slot, AllocKind::Na, reply)),
        Act::AllocAt { slot, rmw, .. } => turns(allocated(env, *slot, kind_at(*rmw), reply)),
        Act::Free { at } => turns(freed(at, env, reply)),
        Act::Load { slot, mode, at } => turns(loaded(env, *slot, *mode, at, reply)),
        Act::Store { mode, at, e } => turns(stored(*mode, at, e, env, reply)),
        Act::Cas {
            slot,
            mode,
            fail,
            at,
            old,
            new,
            ..
        } => turns(exchanged(env, *slot, (*mode, *fail), at, old, new, reply)),
        Act::Add {
            slot,
            mode,
            at,
            e,
            ..
        } => turns(added(env, *slot, *mode, at, e, reply)),
        Act::Swap {
            slot,
            mode,
            at,
            e,
            ..
        } => turns(swapped(env, *slot, *mode, at, e, reply)),
        Act::Call { slot, proc, args } => called(alloc, p, *slot, *proc, args, env),
        Act::Par { calls } => forked(alloc, p, calls, env, reply),
        Act::Fence { mode, .. } => turns(shown(&Need::Fence { mode: *mode }, reply)),
        Act::If { cond, .. } => Ok(branched(cond, env)),
        Act::While { cond, .. } => Ok(repeated(cond, env)),
        Act::Assert { cond } => turns(asserted(cond, env)),
        Act::Print { e } => turns(printed(e, env, reply)),
        Act::Return { e } => turns(returned(e, env)),
        Act::Bank { slot } => turns(banked(env, *slot)),
        Act::Step { .. } => turns(Turn::Goes { label: None }),
    }
}
