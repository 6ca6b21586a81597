//! The top call, which chooses a command by the words.
ghost use Rattle.std.specs.Prelude.{◌≡◌, codes, map, option_map};
ghost use Rattle.fsl_commands.specs.Answer.{IsSaid, answer};
ghost use Rattle.fsl_commands.specs.Changes.{reading, writing};
ghost use Rattle.fsl_commands.specs.Top.{IsAnswered, named, usage};

use crate::answer::{fixed, say};
use crate::check::check_cmd;
use crate::run::run_cmd;
use crate::status::Status;
use fsl_base::{Gate, Shelf, Sink};
use fsl_run::RunWords;
use std::alloc::Global;
use std::thread::Threads;

/// What the program is called with.
const USAGE: &str = "usage: fslpp check|run|gauge FILE [--workers N] [--seed N] [--steps N]\n";

/// How a program is run, as long as no word says it.
const RUN_WORDS: RunWords = RunWords {
    workers: 1,
    seed: None,
    steps: 100000,
};

/// The name of the file that the words name for an action.
fn named<'a>(words: &'a [&'a str], wanted: &str) -> Option<&'a str>
    ensures { option_map (λ name. name.now) result ≡ named wanted.now (map (λ word. word.now) words.now) }
{
    match words {
        [_, action, name] if *action == wanted => Some(name),
        _ => None,
    }
}

/// Writes the usage.
fn usage_cmd<K: Sink>(alloc: Global, sink: &mut K) -> Status
    ensures { IsSaid (λ a. a ≡ answer 2 usage) (writing K.Sink sink.old sink.new) result }
{
    match fixed(alloc, 2, USAGE) {
        Ok(answer) => say(sink, &answer),
        Err(_) => Status(6),
    }
}

/// Runs the program on its words: its name, an action and what the action takes. One worker judges and at most
/// 100000 moves are made, as long as no word says how many.
pub fn fslpp<'a, R: Threads + Sync, H: Shelf, K: Sink, G: Gate>(
    rt: &R,
    alloc: Global,
    words: &'a [&'a str],
    shelf: &mut H,
    sink: &mut K,
    gate: &G,
) -> Status
    ensures { IsSaid (IsAnswered (named (codes "check") (map (λ word. word.now) words.now)) (named (codes "run") (map (λ word. word.now) words.now)) (reading H.Shelf shelf.old shelf.new)) (writing K.Sink sink.old sink.new) result }
{
    if let Some(name) = named(words, "check") {
        return check_cmd(rt, alloc, name, 1, shelf, sink, gate);
    }
    match named(words, "run") {
        Some(name) => run_cmd(rt, alloc, name, RUN_WORDS, shelf, sink, gate),
        None => usage_cmd(alloc, sink),
    }
}
