//! One move of the thread: what it asks, what it shows, and what it leaves.
ghost use Rattle.std.specs.Prelude.{◌≡◌, ℕ, ◌+◌, ◌<◌, ◌^◌, length, IfSome, OnOk, OnErr, true, false, if◌then◌else◌};
ghost use Rattle.fsl_core.specs.Moves.{need_of, moved};
ghost use Rattle.fsl_graph.specs.Lone.{is_plain};
ghost use Rattle.fsl_moves.specs.Config.{config_of, Fits};
ghost use Rattle.fsl_moves.specs.Moves.{is_list, is_access, grows, HasNumbers};
ghost use Rattle.fsl_graph.specs.Ending.{limit_of};
ghost use Rattle.fsl_machine.specs.States.{grown, lone_graph};
ghost use Rattle.fsl_machine.specs.History.{IsNext};

use crate::history::History;
use fsl_choose::Choose;
use fsl_core::{Label, Need, Program, Reply};
use fsl_graph::LimitKind;
use fsl_moves::{Config, advance, next};
use std::alloc::{AllocError, Global};

/// The most locations that are allocated.
const MAX_LOCATIONS: u32 = 1024;

/// The most writes.
const MAX_MESSAGES: u32 = 65536;

/// The most threads.
const MAX_THREADS: usize = 1024;

/// What the next move asks, which is no list.
pub(crate) fn asked(alloc: Global, p: &Program, c: &Config) -> Need
    requires fits { Fits p.now c.now }
    requires plain { is_list (need_of p.now (config_of p.now c.now)) ≡ false }
    ensures { result ≡ need_of p.now (config_of p.now c.now) }
{
    match next(alloc, p, c) {
        Ok(need) => need,
        Err(_) => unreachable!(),
    }
}

/// The limit that a move meets.
pub(crate) fn limit(need: &Need, history: &History) -> Option<LimitKind>
    ensures { (moves : ℕ) → limit_of need.now (lone_graph moves history.now) ≡ result }
{
    match need {
        Need::Alloc { .. } if history.allocated() >= MAX_LOCATIONS => Some(LimitKind::Locations),
        Need::Store { .. } | Need::Rmw { .. } if history.written() >= MAX_MESSAGES => {
            Some(LimitKind::Messages)
        }
        Need::Fork { calls } if calls.len() >= MAX_THREADS => Some(LimitKind::Threads),
        _ => None,
    }
}

/// Adds the event of a move, if it has one. For want of memory nothing changes.
pub(crate) fn remember(history: &mut History, label: Option<Label>) -> Result<(), AllocError>
    requires plain { IfSome label (λ x. is_plain x ≡ true) }
    requires answered { IfSome label (IsNext history.old) }
    requires short { length history.old.events + 1 < 2 ^ 32 }
    ensures grown { OnOk result (history.new ≡ grown label history.old) }
    ensures kept { OnErr result (history.new ≡ history.old) }
{
    match label {
        Some(label) => history.record(label),
        None => Ok(()),
    }
}

/// Asks for the choice of the only candidate of a read or a write.
pub(crate) fn ask<C: Choose>(choose: &mut C, need: &Need)
    ensures { choose.new ≡ (if is_access need.now then C.rest choose.old 1 else choose.old) }
{
    match need {
        Need::Load { .. } | Need::Store { .. } | Need::Rmw { .. } => {
            let _only = choose.pick(1);
        }
        _ => {}
    }
}

/// Makes the move, which takes no memory.
pub(crate) fn go_on(alloc: Global, p: &Program, c: &mut Config, reply: Reply)
    requires fits { Fits p.now c.old }
    requires plain { grows (config_of p.now c.old) ≡ false }
    requires numbers { HasNumbers (need_of p.now (config_of p.now c.old)) reply }
    ensures moved { config_of p.now c.new ≡ (moved p.now (config_of p.now c.old) reply).config }
    ensures fits { Fits p.now c.new }
{
    match advance(alloc, p, c, reply) {
        Ok(_label) => {}
        Err(_) => unreachable!(),
    }
}
