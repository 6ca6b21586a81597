//! One step of a path: what comes next, the first first.
ghost use Rattle.std.specs.Prelude.{◌≡◌, map, IfOk, IsTrue};
ghost use Rattle.fsl_flow.specs.Supported.{is_supported_act, are_supported};
ghost use Rattle.fsl_flow.specs.Continuation.{leaving_of, continuation_of};
ghost use Rattle.fsl_flow.specs.Pending.{item_of, goes_on};
ghost use Rattle.fsl_flow.specs.Next.{next, next_exit, next_turn, next_block, next_stmt};
ghost use Rattle.fsl_flow.specs.Paths.{is_supported_continuation};

use crate::continuation::{Continuation, Exit, Frame, Loop};
use crate::contract::{close, give_inv, return_with};
use crate::job::Job;
use crate::looping::{at_body, at_round, decide};
use crate::pending::{Pending, each, each_end, each_side, go_on};
use crate::sets::past;
use crate::statements::{follow, has_rule};
use fsl_base::List;
use fsl_chunk::State;
use fsl_core::{Act, Stmt};
use std::alloc::{AllocError, Global};

/// What comes next on a path.
#[tactic(auto, using(crate::proofs::ContinuationLemmas::none_first))]
pub fn next<'a>(
    alloc: Global,
    job: &Job<'_>,
    state: State,
    continuation: Continuation<'a>,
) -> Result<List<Pending<'a>>, AllocError>
    requires { IsTrue (is_supported_continuation (continuation_of continuation)) }
    ensures { IfOk result (λ ps. map item_of ps ≡ next job.now (goes_on state (continuation_of continuation.entry))) }
{
    let Continuation { mut frames, exit } = continuation;
    match frames.pop() {
        Some(Frame::Block { stmts, declared }) => {
            block(
                alloc,
                job,
                state,
                stmts,
                declared,
                Continuation { frames, exit },
            )
        }
        Some(Frame::Loop { entered }) => turn(
            alloc,
            state,
            &entered,
            &Continuation { frames, exit },
        ),
        None => leave(alloc, job, state, &exit),
    }
}

/// What comes next behind the last frame.
fn leave<'a>(
    alloc: Global,
    job: &Job<'_>,
    state: State,
    exit: &Exit<'_>,
) -> Result<List<Pending<'a>>, AllocError>
    ensures { IfOk result (λ ps. map item_of ps ≡ next_exit job.now state (leaving_of exit.now)) }
{
    match exit {
        Exit::Closing { at } => {
            let finished = close(alloc, state, &job.proc.post)?;
            each_end(alloc, *at, finished)
        }
        Exit::Back { at, inv } => {
            let given = give_inv(alloc, state, inv)?;
            each_end(alloc, *at, given)
        }
    }
}

/// What comes next of a loop: a turn on paths of their own, and then what is behind the loop.
fn turn<'a>(
    alloc: Global,
    state: State,
    x: &Loop<'a>,
    up: &Continuation<'a>,
) -> Result<List<Pending<'a>>, AllocError>
    ensures { IfOk result (λ ps. map item_of ps ≡ next_turn x.now.at x.now.cond.now x.now.inv.now x.now.body.now x.now.declared state (continuation_of up.now)) }
{
    let inside = at_body(alloc, &state, x)?;
    let back = Exit::Back {
        at: x.at,
        inv: x.inv,
    };
    let body = Continuation::body(alloc, x.body, x.declared, back)?;
    let mut out = each(alloc, x.at, inside, &body)?;
    let behind = at_round(alloc, state, x, false)?;
    out.append(each(alloc, x.at, behind, up)?)?;
    Ok(out)
}

/// What comes next of statements.
fn block<'a>(
    alloc: Global,
    job: &Job<'_>,
    state: State,
    stmts: &'a [Stmt],
    declared: u64,
    up: Continuation<'a>,
) -> Result<List<Pending<'a>>, AllocError>
    requires { IsTrue (are_supported stmts.now) }
    ensures { IfOk result (λ ps. map item_of ps ≡ next_block job.now state stmts.now declared (continuation_of up.entry)) }
{
    match stmts.split_first() {
        Some((stmt, others)) => {
            let continuation = up.with(Frame::Block {
                stmts: others,
                declared: past(declared, &stmt.act),
            })?;
            statement(alloc, job, state, stmt, declared, continuation)
        }
        None => {
            let mut out = List::new(alloc);
            out.push(Pending::Goes {
                state,
                continuation: up,
            })?;
            Ok(out)
        }
    }
}

/// What comes next of a statement.
fn statement<'a>(
    alloc: Global,
    job: &Job<'_>,
    state: State,
    stmt: &'a Stmt,
    declared: u64,
    continuation: Continuation<'a>,
) -> Result<List<Pending<'a>>, AllocError>
    requires { IsTrue (is_supported_act stmt.now.act) }
    ensures { IfOk result (λ ps. map item_of ps ≡ next_stmt job.now stmt.now declared state (continuation_of continuation.entry)) }
{
    if has_rule(&stmt.act) {
        let came = follow(alloc, job.program, state, &stmt.act)?;
        return go_on(alloc, stmt.span, came, continuation);
    }
    match &stmt.act {
        Act::If { cond, yes, no } => {
            let sides = decide(alloc, state, cond)?;
            let yes = yes.as_slice();
            let no = no.as_slice();
            each_side(alloc, stmt.span, sides, yes, no, declared, &continuation)
        }
        Act::While { cond, inv, body } => {
            let given = give_inv(alloc, state, inv)?;
            let entered = Loop {
                at: stmt.span,
                cond,
                inv,
                body: body.as_slice(),
                declared,
            };
            let continuation = continuation.with(Frame::Loop { entered })?;
            each(alloc, stmt.span, given, &continuation)
        }
        Act::Return { e } => {
            let finished = return_with(alloc, state, &job.proc.post, e)?;
            each_end(alloc, stmt.span, finished)
        }
        _ => unreachable!(),
    }
}
