//! The moves of a thread.
ghost use Rattle.std.specs.Prelude.{◌≡◌, ◌<◌, true, false, length, slice_get, IfOk, OnOk, OnErr, List as Seq};
ghost use Rattle.fsl_core.specs.Programs.{Program};
ghost use Rattle.fsl_core.specs.Moves as moves;
ghost use Rattle.fsl_core.specs.Moves.{need_of, moved, start_of, running, joining, numbers_from};
ghost use Rattle.fsl_moves.specs.Config.{config_of, frame_of, frames_of, params_of, AreNumbered, Fits};
ghost use Rattle.fsl_moves.specs.Done.{is_empty};
ghost use Rattle.fsl_moves.specs.Moves.{is_list, is_access, stmts_grow, grows, HasNumbers};
ghost use Rattle.fsl_moves.specs.Turn.{turned};

use crate::acts::carried_out;
use crate::calls::entered;
use crate::config::{Children, Config, Frame};
use crate::done::Turn;
use crate::label::label_of;
use crate::lists::{joined, numbers};
use crate::needs::asked;
use crate::reach::{next_of, reach};
use crate::turn::{end, settle};
use fsl_base::List;
use fsl_core::{Label, Need, Program, Reply};
use std::alloc::{AllocError, Global};

/// Where a thread starts that runs a procedure, by its number, with these arguments, one for each
/// parameter.
pub fn start(alloc: Global, p: &Program, proc: u32, args: &[i64]) -> Result<Config, AllocError>
    requires in_range { proc < length p.now.procs }
    requires arguments { params_of (slice_get p.now.procs proc) ≡ length args.now }
    ensures starts { IfOk result (λ c. config_of p.now c ≡ start_of p.now proc args.now) }
    ensures fits { IfOk result (Fits p.now) }
{
    let args = List::from_slice(alloc, args)?;
    match entered(alloc, p, proc, args, None)? {
        Some(frame) => Ok(Config::Running {
            frame,
            below: Vec::new(alloc),
            children: None,
        }),
        None => unreachable!(),
    }
}

/// What a procedure that runs asks; `last` says whether no other waits for it.
fn next_in(alloc: Global, p: &Program, frame: &Frame, last: bool) -> Result<Need, AllocError>
    ensures need { IfOk result (λ need. (fs : Seq moves.Frame) → is_empty fs ≡ last → need_of p.now (running (frame_of p.now frame.now) fs) ≡ need) }
    ensures memory { OnErr result ((fs : Seq moves.Frame) → is_list (need_of p.now (running (frame_of p.now frame.now) fs)) ≡ true) }
{
    match next_of(p, frame) {
        Some(next) => asked(alloc, p, &next.stmt.act, &frame.env, last),
        None if last => Ok(Need::End { value: 0 }),
        None => Ok(Need::Local),
    }
}

/// What the next move asks. It takes memory only for a list of threads, of a Fork or a Join.
pub fn next(alloc: Global, p: &Program, c: &Config) -> Result<Need, AllocError>
    requires { Fits p.now c.now }
    ensures need { IfOk result (λ need. need ≡ need_of p.now (config_of p.now c.now)) }
    ensures memory { OnErr result (is_list (need_of p.now (config_of p.now c.now)) ≡ true) }
{
    match c {
        Config::Running {
            frame,
            below,
            children,
        } => match children {
            Some(children) => {
                let children = numbers(alloc, *children)?;
                Ok(Need::Join { children })
            }
            None => next_in(alloc, p, frame, below.is_empty()),
        },
        Config::Returned { value } => Ok(Need::Returned { value: *value }),
        Config::Halted => Ok(Need::Halted),
        Config::Failed => Ok(Need::Failed),
    }
}

/// Makes the move of the procedure that runs. For want of memory the thread stands where it stood.
fn go_on(
    alloc: Global,
    p: &Program,
    frame: &mut Frame,
    below: &mut Vec<Frame>,
    children: &mut Option<Children>,
    reply: &Reply,
) -> Result<Turn, AllocError>
    requires alone { children.old ≡ None }
    requires numbers { HasNumbers (need_of p.now (running (frame_of p.now frame.old) (frames_of p.now below.old.items))) reply.now }
    ensures moved { IfOk result (λ turn. moved p.now (running (frame_of p.now frame.old) (frames_of p.now below.old.items)) reply.now ≡ turned p.now frame.new below.new.items children.new turn) }
    ensures numbers { OnOk result (AreNumbered children.new) }
    ensures kept { OnErr result (frame_of p.now frame.new ≡ frame_of p.now frame.old) }
    ensures below { OnErr result (below.new.items ≡ below.old.items) }
    ensures children { OnErr result (children.new ≡ None) }
    ensures memory { OnErr result (stmts_grow (frame_of p.now frame.old).stmts ≡ true) }
{
    let Some(stmt) = reach(p, frame) else {
        return Ok(end(frame, below, 0));
    };
    let done = carried_out(alloc, p, &stmt.act, &mut frame.env, reply)?;
    settle(frame, below, children, done)
}

/// Ends the wait for threads.
fn join(
    alloc: Global,
    children: &mut Option<Children>,
    waits: Children,
    reply: &Reply,
) -> Result<Turn, AllocError>
    requires waits { children.old ≡ Some waits }
    requires numbered { AreNumbered (Some waits) }
    requires numbers { HasNumbers (Need.Join (numbers_from waits.first waits.count)) reply.now }
    ensures moved { IfOk result (λ turn. (p : Program) (f : Frame) (below : Seq Frame) → moved p (joining waits.first waits.count (frame_of p f) (frames_of p below)) reply.now ≡ turned p f below children.new turn) }
    ensures numbers { OnOk result (AreNumbered children.new) }
    ensures kept { OnErr result (children.new ≡ children.old) }
{
    let Reply::Results { values } = reply else {
        return Ok(Turn::Fails);
    };
    let results = joined(alloc, waits.first, values.as_slice())?;
    *children = None;
    let label = Some(Label::Join { results });
    Ok(Turn::Goes { label })
}

/// Makes the next move with the answer to what it asks, and gives its label, `None` exactly where the
/// move is local. An answer of another kind fails the thread. It takes the time of its statement and of
/// the depth at which that stands. For want of memory the thread stands where it stood; a move takes memory only
/// where it enters a block or a procedure, or where it starts threads or waits for them.
pub fn advance(
    alloc: Global,
    p: &Program,
    c: &mut Config,
    reply: Reply,
) -> Result<Option<Label>, AllocError>
    requires fits { Fits p.now c.old }
    requires numbers { HasNumbers (need_of p.now (config_of p.now c.old)) reply }
    ensures moved { IfOk result (λ label. moved p.now (config_of p.now c.old) reply ≡ record { config = config_of p.now c.new; label = label }) }
    ensures kept { OnErr result (config_of p.now c.new ≡ config_of p.now c.old) }
    ensures fits { Fits p.now c.new }
    ensures memory { OnErr result (grows (config_of p.now c.old) ≡ true) }
    ensures accesses { OnErr result (is_access (need_of p.now (config_of p.now c.old)) ≡ false) }
{
    let Config::Running {
        frame,
        below,
        children,
    } = c
    else {
        return Ok(None);
    };
    let turn = match *children {
        Some(waits) => join(alloc, children, waits, &reply)?,
        None => go_on(alloc, p, frame, below, children, &reply)?,
    };
    match turn {
        Turn::Goes { label } => Ok(label),
        Turn::Returns { value } => {
            *c = Config::Returned { value };
            Ok(label_of(&Need::End { value }, &reply))
        }
        Turn::Halts { label } => {
            *c = Config::Halted;
            Ok(label)
        }
        Turn::Fails => {
            *c = Config::Failed;
            Ok(None)
        }
    }
}
