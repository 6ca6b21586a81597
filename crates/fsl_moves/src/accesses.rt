//! The moves of statements that touch the memory: what a reply makes of the variables, and how each ends.
ghost use Rattle.std.specs.Prelude.{◌≡◌, Bool, ◌+ℤ◌, List as Seq, slice_set};
ghost use Rattle.fsl_core.specs.declared.act.Act.TheOpen.{Act-F};
ghost use Rattle.fsl_core.specs.declared.act.Step.{Step};
ghost use Rattle.fsl_core.specs.declared.assertion.Inst.{Inst};
ghost use Rattle.fsl_core.specs.Programs.{Program};
ghost use Rattle.fsl_core.specs.Moves.{kind_at};
ghost use Rattle.fsl_moves.specs.Done.{Ends};
ghost use Rattle.fsl_moves.specs.Label.{label_of};

use crate::done::{Done, Turn};
use crate::label::{label_of, update_of};
use crate::needs::reading_mode;
use fsl_base::List;
use fsl_core::{AllocKind, Expr, Mode, Need, Reply, RmwOp, eval};

/// Sets a variable, where there is one of this slot.
pub fn set(env: &mut List<i64>, slot: u32, value: i64)
    ensures { env.new ≡ slice_set env.old slot value }
{
    if (slot as usize) < env.len() {
        env.set(slot as usize, value);
    }
}

/// The end of a move with the label of what it asks and is answered.
pub fn shown(need: &Need, reply: &Reply) -> Turn
    ensures { result ≡ Turn.Goes (label_of need.now reply.now) }
{
    let label = label_of(need, reply);
    Turn::Goes { label }
}

pub fn allocated(env: &mut List<i64>, slot: u32, kind: AllocKind, reply: &Reply) -> Turn
    ensures plain { (p : Program) → kind ≡ AllocKind.Na → Ends p (Act-F.AllocNa slot) env.old reply.now env.new (Done.Turns result) }
    ensures atomic { (p : Program) (rmw : Bool) (inst : Inst) → kind ≡ kind_at rmw → Ends p (Act-F.AllocAt slot rmw inst) env.old reply.now env.new (Done.Turns result) }
{
    match reply {
        Reply::Place { loc } => {
            set(env, slot, *loc);
            shown(&Need::Alloc { kind }, reply)
        }
        _ => Turn::Fails,
    }
}

pub fn freed(at: &Expr, env: &List<i64>, reply: &Reply) -> Turn
    ensures { (p : Program) → Ends p (Act-F.Free at.now) env.now reply.now env.now (Done.Turns result) }
{
    match eval(at, env) {
        Some(loc) => shown(&Need::Free { loc }, reply),
        None => Turn::Halts { label: None },
    }
}

pub fn loaded(env: &mut List<i64>, slot: u32, mode: Mode, at: &Expr, reply: &Reply) -> Turn
    ensures { (p : Program) → Ends p (Act-F.Load slot mode at.now) env.old reply.now env.new (Done.Turns result) }
{
    match (eval(at, env), reply) {
        (None, _) => Turn::Halts { label: None },
        (Some(loc), Reply::Read { value }) => {
            set(env, slot, *value);
            shown(&Need::Load { mode, loc }, reply)
        }
        _ => Turn::Fails,
    }
}

pub fn stored(mode: Mode, at: &Expr, e: &Expr, env: &List<i64>, reply: &Reply) -> Turn
    ensures { (p : Program) → Ends p (Act-F.Store mode at.now e.now) env.now reply.now env.now (Done.Turns result) }
{
    match (eval(at, env), eval(e, env)) {
        (Some(loc), Some(value)) => shown(&Need::Store { mode, loc, value }, reply),
        _ => Turn::Halts { label: None },
    }
}

pub fn exchanged(
    env: &mut List<i64>,
    slot: u32,
    modes: (Mode, Mode),
    at: &Expr,
    old: &Expr,
    new: &Expr,
    reply: &Reply,
) -> Turn
    ensures { (p : Program) (steps : Seq Step) → Ends p (Act-F.Cas slot modes.0 modes.1 at.now old.now new.now steps) env.old reply.now env.new (Done.Turns result) }
{
    let Some(loc) = eval(at, env) else {
        return Turn::Halts { label: None };
    };
    let Some(old) = eval(old, env) else {
        return Turn::Halts { label: None };
    };
    let Some(new) = eval(new, env) else {
        return Turn::Halts { label: None };
    };
    match reply {
        Reply::Read { value } => {
            set(env, slot, *value);
            let (mode, fail) = modes;
            let op = RmwOp::Cas { old, new };
            let need = Need::Rmw {
                mode,
                fail,
                loc,
                op,
            };
            shown(&need, reply)
        }
        _ => Turn::Fails,
    }
}

/// A sum out of range halts the thread, with the label of a load.
pub fn added(env: &mut List<i64>, slot: u32, mode: Mode, at: &Expr, e: &Expr, reply: &Reply) -> Turn
    ensures { (p : Program) (steps : Seq Step) → Ends p (Act-F.Add slot mode at.now e.now steps) env.old reply.now env.new (Done.Turns result) }
{
    let (Some(loc), Some(n)) = (eval(at, env), eval(e, env)) else {
        return Turn::Halts { label: None };
    };
    let Reply::Read { value } = reply else {
        return Turn::Fails;
    };
    let op = RmwOp::Add { n };
    let fail = reading_mode(mode);
    let need = Need::Rmw {
        mode,
        fail,
        loc,
        op,
    };
    let label = label_of(&need, reply);
    match update_of(&op, value) {
        Some(_) => {
            set(env, slot, *value);
            Turn::Goes { label }
        }
        None => Turn::Halts { label },
    }
}

pub fn swapped(
    env: &mut List<i64>,
    slot: u32,
    mode: Mode,
    at: &Expr,
    e: &Expr,
    reply: &Reply,
) -> Turn
    ensures { (p : Program) (steps : Seq Step) → Ends p (Act-F.Swap slot mode at.now e.now steps) env.old reply.now env.new (Done.Turns result) }
{
    match (eval(at, env), eval(e, env), reply) {
        (Some(loc), Some(n), Reply::Read { value }) => {
            set(env, slot, *value);
            let fail = reading_mode(mode);
            let op = RmwOp::Swap { n };
            let need = Need::Rmw {
                mode,
                fail,
                loc,
                op,
            };
            shown(&need, reply)
        }
        (Some(_), Some(_), _) => Turn::Fails,
        _ => Turn::Halts { label: None },
    }
}
