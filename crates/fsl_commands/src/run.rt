//! The command `run`: a program is judged, and where it is accepted it is run.
ghost use Rattle.std.specs.Prelude.{◌≡◌, ◌≤◌, length, IfOk, IsTrue};
ghost use Rattle.fsl_core.specs.Straight.{is_straight};
ghost use Rattle.fsl_commands.specs.Answer.{IsSaid};
ghost use Rattle.fsl_commands.specs.Changes.{reading, writing};
ghost use Rattle.fsl_commands.specs.Run.{IsRan, IsRunAnswer, end_status, run_answer};

use crate::answer::{Answer, say};
use crate::check::verdict_status;
use crate::command::Command;
use crate::loading::{Loaded, read_program};
use crate::status::Status;
use crate::unread::refused;
use fsl_base::{Gate, Shelf, Sink};
use fsl_core::Verdict;
use fsl_exec_text::write;
use fsl_graph::End;
use fsl_report::verdict_text;
use fsl_run::{Ran, RunWords, run};
use fsl_sound::judge;
use std::alloc::{AllocError, Global};
use std::thread::Threads;

/// The status of an end.
fn end_status(end: End) -> u8
    ensures { result ≡ end_status end }
{
    match end {
        End::Finished => 0,
        End::Spent => 7,
        End::Halted { .. } => 8,
        End::Limit { .. } => 9,
    }
}

/// The answer on a run.
fn ended(alloc: Global, ran: &Ran) -> Result<Answer, AllocError>
    ensures { IfOk result (λ a. a ≡ run_answer ran.now.graph ran.now.end) }
{
    Ok(Answer {
        status: Status(end_status(ran.end)),
        text: write(alloc, &ran.graph, ran.end)?,
    })
}

/// The answer on a program that was read: its verdict where it fails, else a run of it.
fn judged<R: Threads + Sync, G: Gate>(
    rt: &R,
    alloc: Global,
    loaded: Loaded,
    how: RunWords,
    gate: &G,
) -> Result<Answer, AllocError>
    requires supported { IsTrue (is_straight loaded.program) }
    requires within { length loaded.bytes ≤ 1048576 }
    requires some { 1 ≤ how.workers }
    requires few { how.workers ≤ 64 }
    ensures { IfOk result (IsRunAnswer loaded.bytes loaded.program how.steps) }
{
    let Loaded { bytes, program } = loaded;
    let verdict = judge(rt, alloc, &program, how.workers, gate)?;
    let status = verdict_status(&verdict);
    if status == 0 {
        ended(alloc, &run(alloc, program, how, gate)?)
    } else {
        Ok(Answer {
            status: Status(status),
            text: verdict_text(alloc, bytes.as_slice(), &program, &verdict)?,
        })
    }
}

/// The answer of `run`, before it is written.
fn answered<R: Threads + Sync, H: Shelf, G: Gate>(
    rt: &R,
    alloc: Global,
    name: &str,
    how: RunWords,
    shelf: &mut H,
    gate: &G,
) -> Result<Answer, AllocError>
    requires some { 1 ≤ how.workers }
    requires few { how.workers ≤ 64 }
    ensures { IfOk result (λ a. IsRan (reading H.Shelf shelf.old shelf.new name.now) how.steps a) }
{
    match read_program(alloc, name, shelf, Command::Run) {
        Ok(loaded) => judged(rt, alloc, loaded, how, gate),
        Err(unread) => refused(alloc, &unread),
    }
}

/// `run FILE`: reads the program and judges it as `check` does; writes the verdict where it fails, and else runs it
/// and writes the execution. There are 1 to 64 workers and at most 1 to 1000000 moves.
pub fn run_cmd<R: Threads + Sync, H: Shelf, K: Sink, G: Gate>(
    rt: &R,
    alloc: Global,
    name: &str,
    how: RunWords,
    shelf: &mut H,
    sink: &mut K,
    gate: &G,
) -> Status
    requires some { 1 ≤ how.workers }
    requires few { how.workers ≤ 64 }
    ensures { IsSaid (IsRan (reading H.Shelf shelf.old shelf.new name.now) how.steps) (writing K.Sink sink.old sink.new) result }
{
    match answered(rt, alloc, name, how, shelf, gate) {
        Ok(answer) => say(sink, &answer),
        Err(_) => Status(6),
    }
}
