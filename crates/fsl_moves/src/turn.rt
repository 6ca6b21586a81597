//! What the end of a statement's move makes of the procedures that run.
ghost use Rattle.std.specs.Prelude.{◌≡◌, ◌+◌, ◌++◌, ◌∷◌, ◌<◌, ◌^◌, true, IfOk, OnOk, OnErr};
ghost use Rattle.fsl_core.specs.declared.act.Act.TheViews.{out-Act};
ghost use Rattle.fsl_core.specs.declared.act.Stmt.{Stmt};
ghost use Rattle.fsl_core.specs.Programs.{Program};
ghost use Rattle.fsl_moves.specs.Config.{block_of, frame_of, frames_of, AreNumbered};
ghost use Rattle.fsl_moves.specs.Done.{stays, frame_with, returned_to, after};
ghost use Rattle.fsl_moves.specs.Moves.{IsNumbered};
ghost use Rattle.fsl_moves.specs.Turn.{IsAt, behind, onward_at, is_entry, turned};

use crate::accesses::set;
use crate::config::{Arm, Children, Entry, Frame};
use crate::done::{Done, Turn};
use std::alloc::AllocError;
use std::mem;

/// Where the block around goes on.
fn onward(arm: Arm, at: usize) -> usize
    requires { at + 1 < 2 ^ 64 }
    ensures { result ≡ onward_at arm at }
{
    match arm {
        Arm::Body => at,
        _ => at + 1,
    }
}

/// Enters a block of the statement that is next. For want of memory nothing changes.
fn enter(frame: &mut Frame, arm: Arm) -> Result<(), AllocError>
    requires { frame.old.at + 1 < 2 ^ 64 }
    ensures entered { OnOk result ((p : Program) (stmt : Stmt) → IsAt p frame.old stmt → frame_of p frame.new ≡ frame_with (block_of arm (out-Act stmt.act) ++ stays arm stmt (behind p frame.old)) frame.old.env frame.old.target) }
    ensures kept { OnErr result ((p : Program) → frame_of p frame.new ≡ frame_of p frame.old) }
{
    let stmt = frame.at;
    let onward = onward(arm, stmt);
    frame.path.push(Entry { stmt, arm, onward })?;
    frame.at = 0;
    Ok(())
}

/// Calls a procedure from the statement that is next. For want of memory nothing changes.
fn call(frame: &mut Frame, below: &mut Vec<Frame>, callee: Frame) -> Result<(), AllocError>
    requires { frame.old.at + 1 < 2 ^ 64 }
    ensures callee { OnOk result (frame.new ≡ callee) }
    ensures caller { OnOk result ((p : Program) → frames_of p below.new.items ≡ frame_with (behind p frame.old) frame.old.env frame.old.target ∷ frames_of p below.old.items) }
    ensures kept { OnErr result ((frame.new ≡ frame.old) × (below.new.items ≡ below.old.items)) }
{
    below.reserve(1)?;
    frame.at += 1;
    let caller = mem::replace(frame, callee);
    below.push_reserved(caller);
    Ok(())
}

/// Ends a procedure with its result.
pub fn end(frame: &mut Frame, below: &mut Vec<Frame>, value: i64) -> Turn
    ensures { (p : Program) → turned p frame.new below.new.items None result ≡ returned_to frame.old.target (frames_of p below.old.items) value }
{
    match below.pop() {
        Some(caller) => {
            let target = frame.target;
            *frame = caller;
            if let Some(slot) = target {
                set(&mut frame.env, slot, value);
            }
            Turn::Goes { label: None }
        }
        None => Turn::Returns { value },
    }
}

/// Goes behind a statement, or out of the procedure.
fn pass(frame: &mut Frame, below: &mut Vec<Frame>, turn: Turn) -> Turn
    requires { frame.old.at + 1 < 2 ^ 64 }
    ensures { (p : Program) (stmt : Stmt) → turned p frame.new below.new.items None result ≡ after p (out-Act stmt.act) stmt (behind p frame.old) frame.old.target (frames_of p below.old.items) frame.old.env (Done.Turns turn) }
{
    match turn {
        Turn::Goes { label } => {
            frame.at += 1;
            Turn::Goes { label }
        }
        Turn::Returns { value } => end(frame, below, value),
        Turn::Halts { label } => Turn::Halts { label },
        Turn::Fails => Turn::Fails,
    }
}

/// Brings a move to its end, which stands before its statement. For want of memory nothing changes.
pub fn settle(
    frame: &mut Frame,
    below: &mut Vec<Frame>,
    children: &mut Option<Children>,
    done: Done,
) -> Result<Turn, AllocError>
    requires alone { children.old ≡ None }
    requires room { frame.old.at + 1 < 2 ^ 64 }
    requires numbered { IsNumbered done }
    ensures settled { IfOk result (λ turn. (p : Program) (stmt : Stmt) → IsAt p frame.old stmt → turned p frame.new below.new.items children.new turn ≡ after p (out-Act stmt.act) stmt (behind p frame.old) frame.old.target (frames_of p below.old.items) frame.old.env done) }
    ensures numbers { OnOk result (AreNumbered children.new) }
    ensures kept { OnErr result ((p : Program) → frame_of p frame.new ≡ frame_of p frame.old) }
    ensures below { OnErr result (below.new.items ≡ below.old.items) }
    ensures children { OnErr result (children.new ≡ None) }
    ensures memory { OnErr result (is_entry done ≡ true) }
{
    match done {
        Done::Turns { turn } => Ok(pass(frame, below, turn)),
        Done::Enters { arm } => {
            enter(frame, arm)?;
            Ok(Turn::Goes { label: None })
        }
        Done::Calls { callee } => {
            call(frame, below, callee)?;
            Ok(Turn::Goes { label: None })
        }
        Done::Starts {
            children: started,
            label,
        } => {
            frame.at += 1;
            *children = Some(started);
            Ok(Turn::Goes { label: Some(label) })
        }
    }
}
