//! The next statement of a procedure that runs.
ghost use Rattle.std.specs.Prelude.{◌≡◌, ◌≤◌, [], length, take, slice_get, MatchOption, List as Seq};
ghost use Rattle.fsl_core.specs.declared.act.Stmt.{Stmt};
ghost use Rattle.fsl_core.specs.declared.act.Act.TheViews.{out-Act};
ghost use Rattle.fsl_moves.specs.Config.{body_of, block_of, entered, innermost, around, left_from, frame_of};
ghost use Rattle.fsl_moves.specs.declared.config.Entry.{Entry};
ghost use Rattle.fsl_moves.specs.Reach.{IsFound};
ghost use Rattle.fsl_moves.specs.Turn.{IsAt};

use crate::config::{Arm, Entry, Frame};
use fsl_core::{Act, Program, Stmt};

/// A statement, and where it stands: the number of entries before its block, and its number there.
#[derive(Clone, Copy)]
pub struct Next<'a> {
    pub depth: usize,
    pub at: usize,
    pub stmt: &'a Stmt,
}

/// The body of a procedure by its number; that of none is empty.
fn body_of(p: &Program, proc: u32) -> &[Stmt]
    ensures { result.now ≡ body_of (slice_get p.now.procs proc) }
{
    match p.procs().get(proc as usize) {
        Some(proc) => proc.body.as_slice(),
        None => &[],
    }
}

/// A block of a statement.
fn block_of(act: &Act, arm: Arm) -> &[Stmt]
    ensures { result.now ≡ block_of arm (out-Act act.now) }
{
    match (arm, act) {
        (Arm::Yes, Act::If { yes, .. }) => yes.as_slice(),
        (Arm::No, Act::If { no, .. }) => no.as_slice(),
        (Arm::Body, Act::While { body, .. }) => body.as_slice(),
        _ => &[],
    }
}

/// The block that is entered from the one around it.
fn entered<'a>(block: &'a [Stmt], entry: Entry) -> &'a [Stmt]
    ensures { result.now ≡ entered entry block.now }
{
    match block.get(entry.stmt) {
        Some(stmt) => block_of(&stmt.act, entry.arm),
        None => &[],
    }
}

/// The next statement of a procedure that runs, `None` where none is left. It takes the time of the
/// depth at which it stands.
pub fn next_of<'a>(p: &'a Program, frame: &Frame) -> Option<Next<'a>>
    ensures { let body = body_of (slice_get p.now.procs frame.now.proc) in let path = frame.now.path.items in IsFound body path (left_from body path frame.now.at) result }
{
    let mut block = body_of(p, frame.proc);
    let mut next = None;
    for depth in 0..frame.path.len() {
        let entry = frame.path[depth];
        next = later(next, block, depth, entry.onward);
        block = entered(block, entry);
    }
    later(next, block, frame.path.len(), frame.at)
}

/// Goes to the next statement of a procedure, out of the blocks of which nothing is left.
pub fn reach<'a>(p: &'a Program, frame: &mut Frame) -> Option<&'a Stmt>
    ensures same { frame_of p.now frame.new ≡ frame_of p.now frame.old }
    ensures reached { MatchOption result ((frame_of p.now frame.old).stmts ≡ []) (λ stmt. IsAt p.now frame.new stmt.now) }
{
    let next = next_of(p, frame)?;
    frame.path.truncate(next.depth);
    frame.at = next.at;
    Some(next.stmt)
}

/// The statement of an inner block, if it is there, else that of the blocks around it.
fn later<'a>(
    outer: Option<Next<'a>>,
    block: &'a [Stmt],
    depth: usize,
    at: usize,
) -> Option<Next<'a>>
    ensures { (body : Seq Stmt) (path : Seq Entry) → depth ≤ length path → innermost body (take depth path) ≡ block.now
        → IsFound body path (around body (take depth path)) outer.entry → IsFound body path (left_from body (take depth path) at) result }
{
    match block.get(at) {
        Some(stmt) => Some(Next { depth, at, stmt }),
        None => outer,
    }
}
