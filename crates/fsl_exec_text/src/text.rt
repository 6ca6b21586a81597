//! The whole text.
ghost use Rattle.std.specs.Prelude.{◌≡◌, ◌++◌, [], IfOk, OnOk};
ghost use Rattle.std.specs.List.{list_any};
ghost use Rattle.fsl_exec_text.specs.Texts.{end_line, execution_text, is_free, order_line, order_lines, thread_line, thread_lines, version};

use crate::events::push_events;
use crate::numbers::{push_integers, push_numbers};
use crate::words::limit_word;
use fsl_base::Text;
use fsl_core::Label;
use fsl_graph::{End, Event, Graph, Order, Thread};
use std::alloc::{AllocError, Global};

/// The text of a graph with its end.
pub fn write(alloc: Global, g: &Graph, end: End) -> Result<Text, AllocError>
    ensures { IfOk result (λ text. text ≡ execution_text g.now end) }
{
    let version = version(g.events.as_slice());
    let end = end_line(alloc, end)?;
    let end = end.as_str();
    let mut text = Text::from_string(format!(in alloc; "execution {version}\n{end}")?);
    push_threads(alloc, &mut text, g.threads.as_slice())?;
    push_events(alloc, &mut text, g.events.as_slice())?;
    push_orders(alloc, &mut text, g.mo.as_slice())?;
    text.push_str("done\n")?;
    Ok(text)
}

/// The version of the format: 2 where some event frees a location, else 1.
fn version(events: &[Event]) -> u32
    ensures { result ≡ version events.now }
{
    for event in events {
        if let Label::Free { .. } = &event.label {
            return 2;
        }
    }
    1
}

/// `end finished`, `end spent`, `end halted T` or `end limit KIND`
fn end_line(alloc: Global, end: End) -> Result<Text, AllocError>
    ensures { IfOk result (λ text. text ≡ end_line end) }
{
    match end {
        End::Finished => Text::from_str(alloc, "end finished\n"),
        End::Spent => Text::from_str(alloc, "end spent\n"),
        End::Halted { thread } => Ok(Text::from_string(format!(in alloc;
            "end halted {thread}\n"
        )?)),
        End::Limit { kind } => {
            let kind = limit_word(kind);
            Ok(Text::from_string(format!(in alloc; "end limit {kind}\n")?))
        }
    }
}

/// `thread T proc P moves M args A1 A2`
fn thread_line(alloc: Global, number: usize, thread: &Thread) -> Result<Text, AllocError>
    ensures { IfOk result (λ text. text ≡ thread_line number thread.now) }
{
    let Thread { proc, moves, .. } = thread;
    let mut text = Text::from_string(format!(in alloc;
        "thread {number} proc {proc} moves {moves} args"
    )?);
    push_integers(alloc, &mut text, thread.args.as_slice())?;
    text.push_str("\n")?;
    Ok(text)
}

/// Adds the lines of threads, which are numbered from 0.
fn push_threads(alloc: Global, text: &mut Text, threads: &[Thread]) -> Result<(), AllocError>
    ensures { OnOk result (text.new ≡ text.old ++ thread_lines 0 threads.now) }
{
    for (number, thread) in threads.iter().enumerate() {
        text.push_str(thread_line(alloc, number, thread)?.as_str())?;
    }
    Ok(())
}

/// `mo L: E1 E2`
fn order_line(alloc: Global, order: &Order) -> Result<Text, AllocError>
    ensures { IfOk result (λ text. text ≡ order_line order.now) }
{
    let loc = order.loc;
    let mut text = Text::from_string(format!(in alloc; "mo {loc}:")?);
    push_numbers(alloc, &mut text, order.writes.as_slice())?;
    text.push_str("\n")?;
    Ok(text)
}

/// Adds the lines of modification orders.
fn push_orders(alloc: Global, text: &mut Text, orders: &[Order]) -> Result<(), AllocError>
    ensures { OnOk result (text.new ≡ text.old ++ order_lines orders.now) }
{
    for order in orders {
        text.push_str(order_line(alloc, order)?.as_str())?;
    }
    Ok(())
}
