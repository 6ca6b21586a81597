//! Runs of programs, and their texts.
use crate::running::{answers, expect, run, shelf};
use fsl_base::{Gate, List, MemSink, OpenGate, Spot};
use fsl_commands::{Status, run_cmd};
use fsl_run::RunWords;
use std::alloc::{AllocError, Global};
use std::sync::atomic::AtomicU32;
use std::sync::atomic::Ordering::SeqCst;
use std::test::Fail;
use std::thread::Threads;

// A store and a load.
const CELL: &str =
    "proc main() { let d = alloc na; store na(d, 7); let x = load na(d); assert (x == 7); }";

// The status and what a sink with so much room holds after a run of a program.
fn run_of<R: Threads + Sync>(
    rt: &R,
    alloc: Global,
    text: &str,
    seed: Option<u32>,
    steps: u32,
    room: u32,
) -> Result<(Status, MemSink), AllocError> {
    let how = RunWords {
        workers: 1,
        seed,
        steps,
    };
    let mut shelf = shelf(alloc, text.as_bytes(), &[])?;
    let mut sink = MemSink::new(alloc, room, List::new(alloc))?;
    let status = run_cmd(rt, alloc, "f", how, &mut shelf, &mut sink, &OpenGate);
    Ok((status, sink))
}

// Programs with their statuses and texts.
const RUN: [(&str, u8, &str); 7] = [
    (
        "proc main() { }",
        0,
        "execution 1
end finished
thread 0 proc 0 moves 1 args
event 0 thread 0 end 0
done
",
    ),
    (
        CELL,
        0,
        "execution 1
end finished
thread 0 proc 0 moves 5 args
event 0 thread 0 alloc na 1
event 1 thread 0 store na 1 7
event 2 thread 0 load na 1 7 from 1
event 3 thread 0 end 0
mo 1: 1
done
",
    ),
    (
        "proc main() { print(-9223372036854775808); }",
        0,
        "execution 1
end finished
thread 0 proc 0 moves 2 args
event 0 thread 0 print -9223372036854775808
event 1 thread 0 end 0
done
",
    ),
    (
        "proc main() { print(9223372036854775808); }",
        8,
        "execution 1
end halted 0
thread 0 proc 0 moves 1 args
done
",
    ),
    (
        "proc main() { let d = alloc na; let x = load na(d); }",
        1,
        "failed main 1:33 uninit\n",
    ),
    (
        "proc main() { print(x); }",
        3,
        "refused type 1:21 unknown\n",
    ),
    ("proc main() { while (true) { } }", 3, "refused form\n"),
];

#[test]
fn programs_are_run(rt: HostRuntime) {
    for (text, status, said) in RUN {
        let words = ["fslpp", "run", "f"];
        answers(&rt, rt.alloc(), &words, text.as_bytes(), status, said);
    }
}

// Two moves are made; a seed changes nothing, since there is one candidate always.
#[test]
fn a_run_stops_at_its_bound(rt: HostRuntime) {
    for seed in [None, Some(5)] {
        let wanted = "execution 1
end spent
thread 0 proc 0 moves 2 args
event 0 thread 0 alloc na 1
event 1 thread 0 store na 1 7
mo 1: 1
done
";
        expect(&rt, run_of(&rt, rt.alloc(), CELL, seed, 2, 512), 7, wanted);
    }
}

// A cell that is given 7 so many times.
fn stores(alloc: Global, count: u32) -> Result<String, AllocError> {
    let mut text = String::new(alloc);
    text.push_str("proc main() { let d = alloc na;\n")?;
    for _store in 0..count {
        text.push_str("store na(d,7);\n")?;
    }
    text.push_str("}\n")?;
    Ok(text)
}

// What a run of it writes that meets the limit of writes.
fn limited(alloc: Global) -> Result<String, AllocError> {
    let mut text = String::new(alloc);
    text.push_str(
        "execution 1
end limit messages
thread 0 proc 0 moves 65537 args
event 0 thread 0 alloc na 1
",
    )?;
    for event in 1..=65536 {
        text.push_str(format!(in alloc; "event {event} thread 0 store na 1 7\n")?.as_str())?;
    }
    text.push_str("mo 1:")?;
    for event in 1..=65536 {
        text.push_str(format!(in alloc; " {event}")?.as_str())?;
    }
    text.push_str("\ndone\n")?;
    Ok(text)
}

#[test]
fn a_run_meets_the_limit_of_writes(rt: HostRuntime) -> Result<(), Fail> {
    let alloc = rt.alloc();
    let program = stores(alloc, 65537)?;
    let (status, sink) = run_of(&rt, alloc, program.as_str(), None, 100000, 3000000)?;
    assert_eq!(rt; status, Status(9));
    assert!(rt; sink.written() == limited(alloc)?.as_bytes());
    // one store less meets no limit
    let program = stores(alloc, 65536)?;
    let (status, _sink) = run_of(&rt, alloc, program.as_str(), None, 100000, 3000000)?;
    assert_eq!(rt; status, Status(0));
    Ok(())
}

// Calls of the shelf count from 1, so none fails by the number 0.
#[test]
fn a_run_that_is_not_read_or_not_written_says_so(rt: HostRuntime) {
    for (name, failing, cut, status, said) in [
        ("g", 0, None, 4, "read fault\n"),
        ("f", 2, None, 4, "read fault\n"),
        ("f", 0, Some(9), 5, "execution"),
        ("f", 0, Some(0), 5, ""),
    ] {
        let words = ["fslpp", "run", name];
        let got = run(&rt, rt.alloc(), &words, CELL.as_bytes(), &[failing], cut);
        expect(&rt, got, status, said);
    }
}

// Counts the moves of the first thread.
#[derive(Drop)]
struct CountsMoves {
    moves: AtomicU32,
}

impl Gate for CountsMoves {
    fn before(&self, spot: Spot) {
        if let Spot::Move { thread: 0 } = spot {
            self.moves.fetch_add(1, SeqCst);
        }
    }
}

#[test]
fn the_gate_is_called_before_each_move(rt: HostRuntime) -> Result<(), Fail> {
    let alloc = rt.alloc();
    let mut shelf = shelf(alloc, CELL.as_bytes(), &[])?;
    let mut sink = MemSink::new(alloc, 512, List::new(alloc))?;
    let gate = CountsMoves {
        moves: AtomicU32::new(0),
    };
    let how = RunWords {
        workers: 1,
        seed: None,
        steps: 100,
    };
    let status = run_cmd(&rt, alloc, "f", how, &mut shelf, &mut sink, &gate);
    assert_eq!(rt; status, Status(0));
    assert_eq!(rt; gate.moves.load(SeqCst), 5);
    Ok(())
}
