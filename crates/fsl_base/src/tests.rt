//! Tests of what no clause says: that the calls succeed where there is memory, and that the system's
//! own shelf and sink work.
ghost use Rattle.std.specs.Prelude.{◌≤◌};

use crate::file_shelf::FileShelf;
use crate::list::List;
use crate::mem_shelf::{MemShelf, Named};
use crate::mem_sink::{Cut, MemSink};
use crate::open_gate::OpenGate;
use crate::out_sink::OutSink;
use crate::outside::{Gate, Shelf, Sink, Spot};
use crate::reading::{ReadAll, read_all};
use crate::text::Text;
use std::alloc::{AllocError, Global};
use std::process::Abort;

// A shelf with two files of the name `a`.
fn shelf(alloc: Global, piece: u32, failing: &[u32]) -> Result<MemShelf, AllocError>
    requires { 1 ≤ piece }
{
    let mut files = List::new(alloc);
    for (name, bytes) in [("a", "hello"), ("a", "second"), ("b", "")] {
        let name = Text::from_str(alloc, name)?;
        let bytes = List::from_slice(alloc, bytes.as_bytes())?;
        files.push(Named { name, bytes })?;
    }
    Ok(MemShelf::new(files, piece, List::from_slice(alloc, failing)?))
}

// Begins a file and reads it.
fn read(
    alloc: Global,
    shelf: &mut impl Shelf,
    name: &str,
    limit: u32,
) -> Result<List<u8>, ReadAll> {
    if shelf.begin(name).is_err() {
        return Err(ReadAll::Fault);
    }
    read_all(alloc, shelf, limit)
}

fn check(rt: &impl Abort, got: Result<List<u8>, ReadAll>, want: Result<&str, ReadAll>) {
    match (got, want) {
        (Ok(got), Ok(want)) => assert_eq!(rt; got.as_slice(), want.as_bytes()),
        (Err(got), Err(want)) => assert_eq!(rt; got, want),
        _ => panic!(rt; "one is read and the other is not"),
    }
}

#[test]
fn a_file_is_read_up_to_the_limit(rt: HostRuntime) {
    for piece in [1, 3] {
        for (limit, want) in [
            (6, Ok("hello")),
            (5, Ok("hello")),
            (4, Err(ReadAll::TooLong)),
        ] {
            let mut shelf = shelf(rt.alloc(), piece, &[]).expect(&rt, "no memory");
            check(&rt, read(rt.alloc(), &mut shelf, "a", limit), want);
        }
    }
}

#[test]
fn a_listed_call_fails_and_the_next_succeeds(rt: HostRuntime) {
    let mut shelf = shelf(rt.alloc(), 3, &[3]).expect(&rt, "no memory");
    check(
        &rt,
        read(rt.alloc(), &mut shelf, "a", 9),
        Err(ReadAll::Fault),
    );
    check(
        &rt,
        read(rt.alloc(), &mut shelf, "c", 9),
        Err(ReadAll::Fault),
    );
    check(&rt, read(rt.alloc(), &mut shelf, "b", 0), Ok(""));
    check(&rt, read(rt.alloc(), &mut shelf, "a", 9), Ok("hello"));
}

#[test]
fn a_sink_is_cut_short(rt: HostRuntime) {
    let cuts = [
        Cut { call: 2, bytes: 2 },
        Cut { call: 2, bytes: 3 },
        Cut { call: 4, bytes: 9 },
    ];
    let cuts = List::from_slice(rt.alloc(), &cuts).expect(&rt, "no memory");
    let mut sink = MemSink::new(rt.alloc(), 8, cuts).expect(&rt, "no memory");
    let pushes = [
        ("abc", None, "abc"),
        ("def", Some(2), "abcde"),
        ("f", None, "abcdef"),
        ("g", Some(1), "abcdefg"),
        ("hij", Some(1), "abcdefgh"),
        ("", None, "abcdefgh"),
    ];
    for (piece, want, written) in pushes {
        let taken = sink.push(piece.as_bytes()).err().map(|taken| taken.bytes);
        assert_eq!(rt; taken, want);
        assert_eq!(rt; sink.written(), written.as_bytes());
    }
}

#[test]
fn the_system_reads_and_writes(rt: HostRuntime) {
    OpenGate.before(Spot::Move { thread: 0 });
    let mut shelf = FileShelf::new(&rt);
    check(&rt, read(rt.alloc(), &mut shelf, "/dev/null", 0), Ok(""));
    check(
        &rt,
        read(rt.alloc(), &mut shelf, "/dev/zero", 9999),
        Err(ReadAll::TooLong),
    );
    check(
        &rt,
        read(rt.alloc(), &mut shelf, "/dev/null/none", 9),
        Err(ReadAll::Fault),
    );
    assert!(rt; OutSink::new(&rt).push(b"written\n").is_ok());
}
