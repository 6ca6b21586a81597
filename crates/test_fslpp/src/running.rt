//! Runs over a shelf with one file and a sink with some room; and the statuses of small programs, of files that are too
//! long, of calls that fail and of other words.
use fsl_base::{Cut, List, MemShelf, MemSink, Named, OpenGate, Text};
use fsl_commands::{Status, fslpp};
use std::alloc::{AllocError, Global};
use std::process::Abort;
use std::thread::Threads;

// A shelf with one file, `f`, that gives one byte a pull.
pub fn shelf(alloc: Global, bytes: &[u8], failing: &[u32]) -> Result<MemShelf, AllocError> {
    let mut files = List::new(alloc);
    let name = Text::from_str(alloc, "f")?;
    let bytes = List::from_slice(alloc, bytes)?;
    files.push(Named { name, bytes })?;
    Ok(MemShelf::new(files, 1, List::from_slice(alloc, failing)?))
}

// The status and what the sink holds after a run; call numbers that fail, and how many bytes the first push takes.
pub fn run<R: Threads + Sync>(
    rt: &R,
    alloc: Global,
    words: &[&str],
    bytes: &[u8],
    failing: &[u32],
    cut: Option<u32>,
) -> Result<(Status, MemSink), AllocError> {
    let mut cuts = List::new(alloc);
    if let Some(bytes) = cut {
        cuts.push(Cut { call: 1, bytes })?;
    }
    let mut shelf = shelf(alloc, bytes, failing)?;
    let mut sink = MemSink::new(alloc, 512, cuts)?;
    let status = fslpp(rt, alloc, words, &mut shelf, &mut sink, &OpenGate);
    Ok((status, sink))
}

pub fn expect(rt: &impl Abort, got: Result<(Status, MemSink), AllocError>, status: u8, text: &str) {
    match got {
        Ok((got, sink)) => {
            assert_eq!(rt; got, Status(status));
            assert_eq!(rt; sink.written(), text.as_bytes());
        }
        Err(_) => panic!(rt; "no memory"),
    }
}

// That a run answers so where nothing outside fails.
pub fn answers<R: Threads + Sync + Abort>(
    rt: &R,
    alloc: Global,
    words: &[&str],
    bytes: &[u8],
    status: u8,
    said: &str,
) {
    expect(rt, run(rt, alloc, words, bytes, &[], None), status, said);
}

// Programs with their statuses and texts.
const JUDGED: [(&str, u8, &str); 10] = [
    ("proc main() { }", 0, "accepted 1\n"),
    (
        "proc main() { let d = alloc na; store na(d, 7); let x = load na(d); assert (x == 7); }",
        0,
        "accepted 1\n",
    ),
    (
        "proc main() { let d = alloc na; let x = load na(d); }",
        1,
        "failed main 1:33 uninit\n",
    ),
    (
        "proc main() { let x = load na(1); }",
        1,
        "failed main 1:15 points\n",
    ),
    (
        "proc main() { let größe = alloc na; let x = load na(größe); }",
        1,
        "failed main 1:37 uninit\n",
    ),
    (
        "proc main() {\n  let x = 2 + 3 - 1;\n  assert (x == 5);\n}",
        1,
        "failed main 3:3 assert\n",
    ),
    ("", 3, "refused type 1:1 nomain\n"),
    ("proc main() { let d =", 3, "refused syntax 1:22\n"),
    (
        "proc main() { print(x); }",
        3,
        "refused type 1:21 unknown\n",
    ),
    ("proc main() { bank b; }", 3, "refused form\n"),
];

#[test]
fn programs_are_judged(rt: HostRuntime) {
    for (text, status, said) in JUDGED {
        let words = ["fslpp", "check", "f"];
        answers(&rt, rt.alloc(), &words, text.as_bytes(), status, said);
    }
}

#[test]
fn a_file_has_at_most_1048576_bytes(rt: HostRuntime) {
    for (count, said) in [
        (1048577, "refused size\n"),
        (1048576, "refused type 1:1048577 nomain\n"),
    ] {
        let spaces = vec![in rt.alloc(); b' '; count].expect(&rt, "no memory");
        let words = ["fslpp", "check", "f"];
        answers(&rt, rt.alloc(), &words, spaces.as_slice(), 3, said);
    }
}

// Call 4 of the shelf fails; a push takes 5 bytes and fails.
#[test]
fn faults_have_their_statuses(rt: HostRuntime) {
    let alloc = rt.alloc();
    let program = b"proc main() { }";
    let words = ["fslpp", "check", "f"];
    let unread = run(&rt, alloc, &words, program, &[4], None);
    expect(&rt, unread, 4, "read fault\n");
    let unwritten = run(&rt, alloc, &words, program, &[], Some(5));
    expect(&rt, unwritten, 5, "accep");
    let absent = ["fslpp", "check", "g"];
    answers(&rt, alloc, &absent, program, 4, "read fault\n");
}

#[test]
fn other_words_are_answered_with_the_usage(rt: HostRuntime) {
    let alloc = rt.alloc();
    let usage = "usage: fslpp check|run|gauge FILE [--workers N] [--seed N] [--steps N]\n";
    answers(&rt, alloc, &["fslpp", "check"], b"", 2, usage);
    answers(&rt, alloc, &["fslpp", "judge", "f"], b"", 2, usage);
}
