//! What no clause says: that there is memory for a text.
use crate::write;
use fsl_base::List;
use fsl_core::{AllocKind, Ended, Label, Mode};
use fsl_graph::{End, Event, Graph, LimitKind, Order, Thread};
use std::alloc::{AllocError, Global};
use std::test::Fail;

fn event(label: Label, from: Option<u32>) -> Event {
    Event {
        thread: 0,
        label,
        from,
    }
}

// Accesses, fences and threads, each once.
fn labels(alloc: Global) -> Result<List<Event>, AllocError> {
    let results = List::from_slice(
        alloc,
        &[
            Ended {
                thread: 1,
                value: -5,
            },
            Ended {
                thread: 2,
                value: 6,
            },
        ],
    )?;
    let children = List::from_slice(alloc, &[1, 2])?;
    let mut events = List::new(alloc);
    let (loc, mode, value) = (1, Mode::AcqRel, -9223372036854775808);
    let kind = AllocKind::Rmw;
    events.push(event(Label::Alloc { kind, loc }, None))?;
    events.push(event(Label::Fork { children }, None))?;
    events.push(event(
        Label::Load {
            mode: Mode::Rlx,
            loc,
            value: 0,
        },
        None,
    ))?;
    events.push(event(
        Label::Store {
            mode: Mode::Rel,
            loc,
            value,
        },
        None,
    ))?;
    events.push(event(
        Label::Rmw {
            mode,
            loc,
            old: value,
            new: 7,
        },
        Some(3),
    ))?;
    events.push(event(Label::Fence { mode }, None))?;
    events.push(event(Label::Join { results }, None))?;
    events.push(event(Label::Print { value }, None))?;
    events.push(event(Label::End { value: 0 }, None))?;
    Ok(events)
}

// One thread that did these events.
fn graph(alloc: Global, events: List<Event>) -> Result<Graph, AllocError> {
    let mut threads = List::new(alloc);
    threads.push(Thread {
        proc: 3,
        args: List::from_slice(alloc, &[8, -9])?,
        moves: 12,
    })?;
    let mut mo = List::new(alloc);
    mo.push(Order {
        loc: 1,
        writes: List::from_slice(alloc, &[3, 4])?,
    })?;
    Ok(Graph {
        threads,
        events,
        mo,
    })
}

#[test]
fn each_event_has_a_line(rt: HostRuntime) -> Result<(), Fail> {
    let alloc = rt.alloc();
    let g = graph(alloc, labels(alloc)?)?;
    let text = write(alloc, &g, End::Halted { thread: 0 })?;
    let wanted = "execution 1
end halted 0
thread 0 proc 3 moves 12 args 8 -9
event 0 thread 0 alloc rmw 1
event 1 thread 0 fork 1 2
event 2 thread 0 load rlx 1 0 from none
event 3 thread 0 store rel 1 -9223372036854775808
event 4 thread 0 rmw acqrel 1 -9223372036854775808 7 from 3
event 5 thread 0 fence acqrel
event 6 thread 0 join 1=-5 2=6
event 7 thread 0 print -9223372036854775808
event 8 thread 0 end 0
mo 1: 3 4
done
";
    assert_eq!(rt; text.as_str(), wanted);
    Ok(())
}

#[test]
fn a_free_makes_it_version_2(rt: HostRuntime) -> Result<(), Fail> {
    let alloc = rt.alloc();
    let mut events = List::new(alloc);
    events.push(event(Label::Free { loc: 1 }, None))?;
    let g = graph(alloc, events)?;
    let kind = LimitKind::Messages;
    let text = write(alloc, &g, End::Limit { kind })?;
    let wanted = "execution 2
end limit messages
thread 0 proc 3 moves 12 args 8 -9
event 0 thread 0 free 1
mo 1: 3 4
done
";
    assert_eq!(rt; text.as_str(), wanted);
    Ok(())
}
