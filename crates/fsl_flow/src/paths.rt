//! The paths of a procedure, one at a time and depth first: what waits to be followed is a stack on the heap, and the
//! walk stops at the first failure and where there are too many paths.
ghost use Rattle.std.specs.Prelude.{◌≡◌, ◌<◌, ◌++◌, map, IfOk, OnOk, IsTrue, Some, length, slice_get};
ghost use Rattle.std.specs.List.{flat_map, list_all};
ghost use Rattle.std.specs.Option.{option_map};
ghost use Rattle.fsl_core.specs.Verdicts.{outcome_from};
ghost use Rattle.fsl_core.specs.logic.Verdicts.{outcome_of};
ghost use Rattle.fsl_flow.specs.Supported.{is_supported, is_supported_proc};
ghost use Rattle.fsl_flow.specs.Pending.{item_of, stack};
ghost use Rattle.fsl_flow.specs.Paths.{item_ends, is_supported_item};

use crate::continuation::{Continuation, Exit};
use crate::contract::enter;
use crate::job::Job;
use crate::next::next;
use crate::pending::{Pending, each};
use fsl_base::{List, Span};
use fsl_core::{Kind, Outcome, Program};
use std::alloc::{AllocError, Global};

/// The most paths of a procedure.
const MAX_PATHS: u32 = 65536;

/// A failure before the body has no statement.
const NOWHERE: Span = Span { from: 0, to: 0 };

/// The outcome of a procedure, by its number: its first failure, else how many paths it has. The 65537th path that
/// ends fails `Paths` unless it fails by itself.
#[tactic(auto, using(crate::proofs::SupportedLemmas::proc_supported))]
pub fn outcome(alloc: Global, p: &Program, proc: u32) -> Result<Outcome, AllocError>
    requires supported { IsTrue (is_supported p.now) }
    requires in_range { proc < length p.now.procs }
    ensures { IfOk result (λ o. option_map (outcome_of p.now proc) (slice_get p.now.procs proc) ≡ Some o) }
{
    let job = Job {
        program: p,
        number: proc,
        proc: &p.procs()[proc as usize],
    };
    judge(alloc, &job)
}

/// The outcome of a procedure.
fn judge(alloc: Global, job: &Job<'_>) -> Result<Outcome, AllocError>
    requires { IsTrue (is_supported_proc job.now.proc.now) }
    ensures { IfOk result (λ o. o ≡ outcome_of job.now.program.now job.now.number job.now.proc.now) }
{
    let branches = enter(alloc, job.proc)?;
    let closing = Exit::Closing { at: job.proc.last };
    let body = Continuation::body(alloc, job.proc.body.as_slice(), 0, closing)?;
    let first = each(alloc, NOWHERE, branches, &body)?;
    walk(alloc, job, first)
}

/// Follows what waits, one after the other.
fn walk(alloc: Global, job: &Job<'_>, first: List<Pending<'_>>) -> Result<Outcome, AllocError>
    requires { IsTrue (list_all is_supported_item (map item_of first)) }
    ensures { IfOk result (λ o. o ≡ outcome_from job.now.number 0 (flat_map (item_ends job.now) (map item_of first.entry))) }
{
    let mut pending = List::new(alloc);
    lay(&mut pending, first)?;
    let mut count = 0u32;
    while let Some(top) = pending.pop() {
        match top {
            Pending::Goes {
                state,
                continuation,
            } => {
                let more = next(alloc, job, state, continuation)?;
                lay(&mut pending, more)?;
            }
            Pending::Ends { at } => {
                if count == MAX_PATHS {
                    return Ok(Outcome::Fails {
                        proc: job.number,
                        span: at,
                        kind: Kind::Paths,
                    });
                }
                count += 1;
            }
            Pending::Fails { at, kind } => {
                return Ok(Outcome::Fails {
                    proc: job.number,
                    span: at,
                    kind,
                });
            }
        }
    }
    Ok(Outcome::Derived { paths: count })
}

/// Lays more on a stack, the first on top.
#[tactic(auto, using(crate::proofs::ContinuationLemmas::last_first))]
fn lay<'a>(pending: &mut List<Pending<'a>>, more: List<Pending<'a>>) -> Result<(), AllocError>
    ensures { OnOk result (stack pending.new ≡ map item_of more.entry ++ stack pending.old) }
{
    let mut more = more;
    while let Some(last) = more.pop() {
        pending.push(last)?;
    }
    Ok(())
}
