//! The command `check`: a program is read and judged.
ghost use Rattle.std.specs.Prelude.{◌≡◌, ◌≤◌, length, IfOk, IsTrue};
ghost use Rattle.fsl_flow.specs.Supported.{is_supported};
ghost use Rattle.fsl_commands.specs.Answer.{IsSaid};
ghost use Rattle.fsl_commands.specs.Changes.{reading, writing};
ghost use Rattle.fsl_commands.specs.Check.{IsChecked, IsVerdictOn, verdict_status};

use crate::answer::{Answer, say};
use crate::command::Command;
use crate::loading::{Loaded, read_program};
use crate::status::Status;
use crate::unread::refused;
use fsl_base::{Gate, Shelf, Sink};
use fsl_core::Verdict;
use fsl_report::verdict_text;
use fsl_sound::judge;
use std::alloc::{AllocError, Global};
use std::thread::Threads;

/// The status of a verdict.
pub(crate) fn verdict_status(v: &Verdict) -> u8
    ensures { result ≡ verdict_status v.now }
{
    match v {
        Verdict::Accepted { .. } => 0,
        Verdict::Failed { .. } => 1,
    }
}

/// The answer on a program that was read.
fn judged<R: Threads + Sync, G: Gate>(
    rt: &R,
    alloc: Global,
    loaded: &Loaded,
    workers: u32,
    gate: &G,
) -> Result<Answer, AllocError>
    requires supported { IsTrue (is_supported loaded.now.program) }
    requires within { length loaded.now.bytes ≤ 1048576 }
    requires some { 1 ≤ workers }
    requires few { workers ≤ 64 }
    ensures { IfOk result (IsVerdictOn loaded.now.bytes loaded.now.program) }
{
    let verdict = judge(rt, alloc, &loaded.program, workers, gate)?;
    let text = verdict_text(alloc, loaded.bytes.as_slice(), &loaded.program, &verdict)?;
    Ok(Answer {
        status: Status(verdict_status(&verdict)),
        text,
    })
}

/// The answer of `check`, before it is written.
fn checked<R: Threads + Sync, H: Shelf, G: Gate>(
    rt: &R,
    alloc: Global,
    name: &str,
    workers: u32,
    shelf: &mut H,
    gate: &G,
) -> Result<Answer, AllocError>
    requires some { 1 ≤ workers }
    requires few { workers ≤ 64 }
    ensures { IfOk result (λ a. IsChecked (reading H.Shelf shelf.old shelf.new name.now) a) }
{
    match read_program(alloc, name, shelf, Command::Check) {
        Ok(loaded) => judged(rt, alloc, &loaded, workers, gate),
        Err(unread) => refused(alloc, &unread),
    }
}

/// `check FILE`: reads the program, judges its procedures on 1 to 64 workers and writes the verdict. The answer does
/// not depend on the number of workers, and no worker waits for another.
pub fn check_cmd<R: Threads + Sync, H: Shelf, K: Sink, G: Gate>(
    rt: &R,
    alloc: Global,
    name: &str,
    workers: u32,
    shelf: &mut H,
    sink: &mut K,
    gate: &G,
) -> Status
    requires some { 1 ≤ workers }
    requires few { workers ≤ 64 }
    ensures { IsSaid (IsChecked (reading H.Shelf shelf.old shelf.new name.now)) (writing K.Sink sink.old sink.new) result }
{
    match checked(rt, alloc, name, workers, shelf, gate) {
        Ok(answer) => say(sink, &answer),
        Err(_) => Status(6),
    }
}
