//! What the moves of single statements ask.
ghost use Rattle.std.specs.Prelude.{◌≡◌, true, Bool, ℕ, IfOk, OnErr, List as Seq};
ghost use Rattle.fsl_core.specs.declared.act.Act.TheOpen.{Act-F};
ghost use Rattle.fsl_core.specs.declared.act.Act.TheViews.{out-Act};
ghost use Rattle.fsl_core.specs.declared.act.Step.{Step};
ghost use Rattle.fsl_core.specs.Programs.{Program};
ghost use Rattle.fsl_core.specs.Moves.{kind_at, reading_mode};
ghost use Rattle.fsl_moves.specs.Done.{Asks, AsksList};

use crate::calls::{are_possible, started};
use fsl_base::List;
use fsl_core::{Act, AllocKind, Called, Expr, Mode, Need, Program, RmwOp, eval};
use std::alloc::{AllocError, Global};

/// What an atomic location is allocated for.
pub fn kind_at(rmw: bool) -> AllocKind
    ensures { result ≡ kind_at rmw }
{
    if rmw { AllocKind::Rmw } else { AllocKind::Acq }
}

/// The mode of the read of a read-modify-write that doesn't write.
pub fn reading_mode(mode: Mode) -> Mode
    ensures { result ≡ reading_mode mode }
{
    match mode {
        Mode::Acq | Mode::AcqRel => Mode::Acq,
        _ => Mode::Rlx,
    }
}

fn freed(at: &Expr, env: &List<i64>) -> Need
    ensures { (p : Program) (last : Bool) → Asks p (Act-F.Free at.now) env.now last result }
{
    match eval(at, env) {
        Some(loc) => Need::Free { loc },
        None => Need::Local,
    }
}

fn loaded(mode: Mode, at: &Expr, env: &List<i64>) -> Need
    ensures { (p : Program) (slot : ℕ) (last : Bool) → Asks p (Act-F.Load slot mode at.now) env.now last result }
{
    match eval(at, env) {
        Some(loc) => Need::Load { mode, loc },
        None => Need::Local,
    }
}

fn stored(mode: Mode, at: &Expr, e: &Expr, env: &List<i64>) -> Need
    ensures { (p : Program) (last : Bool) → Asks p (Act-F.Store mode at.now e.now) env.now last result }
{
    match (eval(at, env), eval(e, env)) {
        (Some(loc), Some(value)) => Need::Store { mode, loc, value },
        _ => Need::Local,
    }
}

fn exchanged(mode: Mode, fail: Mode, at: &Expr, old: &Expr, new: &Expr, env: &List<i64>) -> Need
    ensures { (p : Program) (slot : ℕ) (steps : Seq Step) (last : Bool) → Asks p (Act-F.Cas slot mode fail at.now old.now new.now steps) env.now last result }
{
    match (eval(at, env), eval(old, env), eval(new, env)) {
        (Some(loc), Some(old), Some(new)) => {
            let op = RmwOp::Cas { old, new };
            Need::Rmw {
                mode,
                fail,
                loc,
                op,
            }
        }
        _ => Need::Local,
    }
}

fn added(mode: Mode, at: &Expr, e: &Expr, env: &List<i64>) -> Need
    ensures { (p : Program) (slot : ℕ) (steps : Seq Step) (last : Bool) → Asks p (Act-F.Add slot mode at.now e.now steps) env.now last result }
{
    match (eval(at, env), eval(e, env)) {
        (Some(loc), Some(n)) => {
            let fail = reading_mode(mode);
            let op = RmwOp::Add { n };
            Need::Rmw {
                mode,
                fail,
                loc,
                op,
            }
        }
        _ => Need::Local,
    }
}

fn swapped(mode: Mode, at: &Expr, e: &Expr, env: &List<i64>) -> Need
    ensures { (p : Program) (slot : ℕ) (steps : Seq Step) (last : Bool) → Asks p (Act-F.Swap slot mode at.now e.now steps) env.now last result }
{
    match (eval(at, env), eval(e, env)) {
        (Some(loc), Some(n)) => {
            let fail = reading_mode(mode);
            let op = RmwOp::Swap { n };
            Need::Rmw {
                mode,
                fail,
                loc,
                op,
            }
        }
        _ => Need::Local,
    }
}

fn printed(e: &Expr, env: &List<i64>) -> Need
    ensures { (p : Program) (last : Bool) → Asks p (Act-F.Print e.now) env.now last result }
{
    match eval(e, env) {
        Some(value) => Need::Print { value },
        None => Need::Local,
    }
}

fn returned(e: &Expr, env: &List<i64>, last: bool) -> Need
    ensures { (p : Program) → Asks p (Act-F.Return e.now) env.now last result }
{
    match eval(e, env) {
        Some(value) if last => Need::End { value },
        _ => Need::Local,
    }
}

/// It takes no memory where a call can't be made.
fn forked(
    alloc: Global,
    p: &Program,
    calls: &List<Called>,
    env: &List<i64>,
) -> Result<Need, AllocError>
    ensures need { (last : Bool) → IfOk result (Asks p.now (Act-F.Par calls.now) env.now last) }
    ensures memory { OnErr result (AsksList p.now (Act-F.Par calls.now) env.now) }
{
    if !are_possible(p, calls.as_slice(), env) {
        return Ok(Need::Local);
    }
    match started(alloc, p, calls.as_slice(), env)? {
        Some(calls) => Ok(Need::Fork { calls }),
        None => Ok(Need::Local),
    }
}

/// What the move of a statement asks; `last` says whether no procedure waits for this one.
pub fn asked(
    alloc: Global,
    p: &Program,
    act: &Act,
    env: &List<i64>,
    last: bool,
) -> Result<Need, AllocError>
    ensures need { IfOk result (Asks p.now (out-Act act.now) env.now last) }
    ensures memory { OnErr result (AsksList p.now (out-Act act.now) env.now) }
{
    match act {
        Act::AllocNa { .. } => Ok(Need::Alloc {
            kind: AllocKind::Na,
        }),
        Act::AllocAt { rmw, .. } => Ok(Need::Alloc {
            kind: kind_at(*rmw),
        }),
        Act::Free { at } => Ok(freed(at, env)),
        Act::Load { mode, at, .. } => Ok(loaded(*mode, at, env)),
        Act::Store { mode, at, e } => Ok(stored(*mode, at, e, env)),
        Act::Cas {
            mode,
            fail,
            at,
            old,
            new,
            ..
        } => Ok(exchanged(*mode, *fail, at, old, new, env)),
        Act::Add { mode, at, e, .. } => Ok(added(*mode, at, e, env)),
        Act::Swap { mode, at, e, .. } => Ok(swapped(*mode, at, e, env)),
        Act::Fence { mode, .. } => Ok(Need::Fence { mode: *mode }),
        Act::Print { e } => Ok(printed(e, env)),
        Act::Return { e } => Ok(returned(e, env, last)),
        Act::Par { calls } => forked(alloc, p, calls, env),
        _ => Ok(Need::Local),
    }
}
