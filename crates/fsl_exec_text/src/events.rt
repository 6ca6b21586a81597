//! What an event did, and the lines of events.
ghost use Rattle.std.specs.Prelude.{◌≡◌, ◌++◌, codes, IfOk, OnOk};
ghost use Rattle.fsl_exec_text.specs.Texts.{event_line, event_lines, numbers, results, source_text, what};

use crate::numbers::{push_numbers, push_results};
use crate::words::{kind_word, mode_word};
use fsl_base::{List, Text};
use fsl_core::{Ended, Label, Mode};
use fsl_graph::Event;
use std::alloc::{AllocError, Global};

/// ` from E`, or ` from none`
fn source_text(alloc: Global, from: Option<u32>) -> Result<Text, AllocError>
    ensures { IfOk result (λ text. text ≡ source_text from) }
{
    match from {
        Some(event) => Ok(Text::from_string(format!(in alloc; " from {event}")?)),
        None => Text::from_str(alloc, " from none"),
    }
}

/// `load M L V from E`
fn load_text(
    alloc: Global,
    mode: Mode,
    loc: i64,
    value: i64,
    from: Option<u32>,
) -> Result<Text, AllocError>
    ensures { IfOk result (λ text. text ≡ what (Label.Load mode loc value) from) }
{
    let mode = mode_word(mode);
    let source = source_text(alloc, from)?;
    let source = source.as_str();
    Ok(Text::from_string(format!(in alloc; "load {mode} {loc} {value}{source}")?))
}

/// `rmw M L OLD NEW from E`
fn rmw_text(
    alloc: Global,
    mode: Mode,
    loc: i64,
    old: i64,
    new: i64,
    from: Option<u32>,
) -> Result<Text, AllocError>
    ensures { IfOk result (λ text. text ≡ what (Label.Rmw mode loc old new) from) }
{
    let mode = mode_word(mode);
    let source = source_text(alloc, from)?;
    let source = source.as_str();
    Ok(Text::from_string(format!(in alloc; "rmw {mode} {loc} {old} {new}{source}")?))
}

/// `fork T U`
fn fork_text(alloc: Global, children: &List<u32>) -> Result<Text, AllocError>
    ensures { IfOk result (λ text. text ≡ codes "fork" ++ numbers children.now) }
{
    let mut text = Text::from_str(alloc, "fork")?;
    push_numbers(alloc, &mut text, children.as_slice())?;
    Ok(text)
}

/// `join T=V U=W`
fn join_text(alloc: Global, listed: &List<Ended>) -> Result<Text, AllocError>
    ensures { IfOk result (λ text. text ≡ codes "join" ++ results listed.now) }
{
    let mut text = Text::from_str(alloc, "join")?;
    push_results(alloc, &mut text, listed.as_slice())?;
    Ok(text)
}

/// What an event did.
fn what(alloc: Global, event: &Event) -> Result<Text, AllocError>
    ensures { IfOk result (λ text. text ≡ what event.now.label event.now.from) }
{
    let from = event.from;
    match &event.label {
        Label::Alloc { kind, loc } => {
            let kind = kind_word(*kind);
            Ok(Text::from_string(format!(in alloc; "alloc {kind} {loc}")?))
        }
        Label::Free { loc } => Ok(Text::from_string(format!(in alloc; "free {loc}")?)),
        Label::Load { mode, loc, value } => load_text(alloc, *mode, *loc, *value, from),
        Label::Store { mode, loc, value } => {
            let mode = mode_word(*mode);
            Ok(Text::from_string(format!(in alloc; "store {mode} {loc} {value}")?))
        }
        Label::Rmw {
            mode,
            loc,
            old,
            new,
        } => rmw_text(alloc, *mode, *loc, *old, *new, from),
        Label::Fence { mode } => {
            let mode = mode_word(*mode);
            Ok(Text::from_string(format!(in alloc; "fence {mode}")?))
        }
        Label::Fork { children } => fork_text(alloc, children),
        Label::Join { results } => join_text(alloc, results),
        Label::Print { value } => Ok(Text::from_string(format!(in alloc; "print {value}")?)),
        Label::End { value } => Ok(Text::from_string(format!(in alloc; "end {value}")?)),
    }
}

/// `event E thread T WHAT`
fn event_line(alloc: Global, number: usize, event: &Event) -> Result<Text, AllocError>
    ensures { IfOk result (λ text. text ≡ event_line number event.now) }
{
    let thread = event.thread;
    let what = what(alloc, event)?;
    let what = what.as_str();
    Ok(Text::from_string(format!(in alloc; "event {number} thread {thread} {what}\n")?))
}

/// Adds the lines of events, which are numbered from 0.
pub(crate) fn push_events(
    alloc: Global,
    text: &mut Text,
    events: &[Event],
) -> Result<(), AllocError>
    ensures { OnOk result (text.new ≡ text.old ++ event_lines 0 events.now) }
{
    for (number, event) in events.iter().enumerate() {
        text.push_str(event_line(alloc, number, event)?.as_str())?;
    }
    Ok(())
}
