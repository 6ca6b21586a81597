//! Puts messages at some locations in turn and reads each of them back, for `bench/memory.py`. The arguments are
//! how many locations there are, and how many messages.
#![tactic(auto)]

ghost use Rattle.std.specs.Prelude.{◌<◌, ◌≤◌, ◌^◌, length, IfSome};

use fsl_mem::{Gap, Memory};
use fsl_view::View;
use std::alloc::{AllocError, Global};
use std::env;
use std::process::ExitCode;

/// Puts one message at the end of a location, and gives how many sources a read has that has seen it.
fn put_and_read(
    alloc: Global,
    memory: &mut Memory,
    view: &mut View,
    loc: i64,
    to: u64,
) -> Result<usize, AllocError>
    requires few { length memory.old.messages < 2 ^ 32 }
    requires some { 1 ≤ to }
{
    let _put = memory.put(loc, Gap { from: to - 1, to }, 7, 0, View::new(alloc))?;
    view.raise(loc, to)?;
    Ok(memory.readable(alloc, loc, view)?.len())
}

/// How many sources all reads had together.
fn sources(alloc: Global, locations: u32, messages: u32) -> Result<usize, AllocError>
    requires { 1 ≤ locations }
{
    let mut memory = Memory::new(alloc);
    let mut view = View::new(alloc);
    let mut sources: usize = 0;
    for turn in 0..messages {
        if memory.len() >= u32::MAX as usize {
            break;
        }
        let loc = i64::from(turn % locations);
        let read = put_and_read(alloc, &mut memory, &mut view, loc, u64::from(turn) + 1)?;
        sources = sources.saturating_add(read);
    }
    Ok(sources)
}

/// What the program is called with.
#[derive(Clone, Copy)]
struct Size {
    locations: u32,
    messages: u32,
}

/// The two arguments, where they are numbers and there is a location.
fn arguments(rt: &HostRuntime) -> Option<Size>
    ensures { IfSome result (λ size. 1 ≤ size.locations) }
{
    let mut args = env::args(rt).ok()?.skip(1);
    let locations = args.next()?.parse::<u32>().ok()?;
    let messages = args.next()?.parse::<u32>().ok()?;
    if locations == 0 {
        return None;
    }
    Some(Size {
        locations,
        messages,
    })
}

fn main(rt: HostRuntime) -> ExitCode {
    let Some(
        Size {
            locations,
            messages,
        },
    ) = arguments(&rt)
    else {
        return ExitCode::from(2);
    };
    let Ok(sources) = sources(rt.alloc(), locations, messages) else {
        return ExitCode::from(6);
    };
    match println!(rt; "{messages} messages at {locations} locations, {sources} sources read") {
        Ok(()) => ExitCode::SUCCESS,
        Err(_) => ExitCode::from(5),
    }
}
