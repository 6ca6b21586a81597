//! Many paths, many symbols, many chunks, many procedures: programs at each limit and one past it.
use crate::limits::repeated;
use crate::refusals::is_answered;
use crate::running::shelf;
use fsl_base::{List, MemSink, OpenGate};
use fsl_commands::{Status, check_cmd};
use std::alloc::{AllocError, Global};
use std::process::Abort;
use std::test::Fail;
use std::thread::Threads;

// Sixteen numbers that nothing is known of.
const NUMBERS: &str =
    "proc f(p0, p1, p2, p3, p4, p5, p6, p7, p8, p9, p10, p11, p12, p13, p14, p15) {\n";

// Sixteen numbers that are at least 0.
const COUNTS: &str =
    "proc f(p0, p1, p2, p3, p4, p5, p6, p7, p8, p9, p10, p11, p12, p13, p14, p15) requires (
p0 >= 0 &*& p1 >= 0 &*& p2 >= 0 &*& p3 >= 0 &*& p4 >= 0 &*& p5 >= 0 &*& p6 >= 0 &*& p7 >= 0 &*&
p8 >= 0 &*& p9 >= 0 &*& p10 >= 0 &*& p11 >= 0 &*& p12 >= 0 &*& p13 >= 0 &*& p14 >= 0 &*& p15 >= 0) {\n";

// That `check` answers so on a piece that stands a number of times, each time with its number behind its first half.
fn walked<R: Threads + Sync + Abort>(
    rt: &R,
    alloc: Global,
    front: &str,
    piece: (&str, &str),
    count: u32,
    back: &str,
    said: &str,
) -> Result<(), AllocError> {
    let text = repeated(alloc, front, piece, count, back)?;
    is_answered(rt, alloc, text.as_str(), said);
    Ok(())
}

// Each `if` doubles the paths.
#[test]
fn as_many_paths_as_may_be(rt: HostRuntime) -> Result<(), AllocError> {
    let alloc = rt.alloc();
    let piece = ("if (p", " > 0) { }\n");
    let back = "}\nproc main() { }";
    walked(&rt, alloc, NUMBERS, piece, 16, back, "accepted 2\n")
}

// The path behind the 65536th ends at the closing brace.
#[test]
fn one_path_too_many(rt: HostRuntime) -> Result<(), AllocError> {
    let alloc = rt.alloc();
    let piece = ("if (p", " > 0) { }\n");
    let back = "let d = alloc na;\nif (d > 1) { }\n}\nproc main() { }";
    let said = "failed f 20:1 paths\n";
    walked(&rt, alloc, NUMBERS, piece, 16, back, said)
}

// The path behind the 65536th is the first on which `d` is 1.
#[test]
fn the_path_too_many_fails_by_itself(rt: HostRuntime) -> Result<(), AllocError> {
    let alloc = rt.alloc();
    let front = joined(
        alloc,
        NUMBERS,
        "let d = alloc na;\nlet far = 0;\nif (d > 1) { far = 1; }\n",
    )?;
    let piece = ("if (p", " > 0) { }\n");
    let back = "assert (far == 1);\n}\nproc main() { }";
    let said = "failed f 21:1 assert\n";
    walked(&rt, alloc, front.as_str(), piece, 16, back, said)
}

// Of the three branches of each `if` the one on which the number is less than 0 contradicts the facts. If it counted,
// eleven would be too many.
#[test]
fn absurd_branches_are_not_counted(rt: HostRuntime) -> Result<(), AllocError> {
    let alloc = rt.alloc();
    let piece = ("if (p", " == 0) { }\n");
    let back = "}\nproc main() { }";
    walked(&rt, alloc, COUNTS, piece, 11, back, "accepted 2\n")
}

// The end of a loop's body is the end of a path: behind 32768 paths two for each, the first at the `while`.
#[test]
fn the_ends_of_bodies_are_counted(rt: HostRuntime) -> Result<(), AllocError> {
    let alloc = rt.alloc();
    let piece = ("if (p", " > 0) { }\n");
    let back = "while (p15 > 0) { }\n}\nproc main() { }";
    walked(&rt, alloc, NUMBERS, piece, 15, back, "accepted 2\n")?;
    let back = "while (true) { }\nstore na(0, 0);\n}\nproc main() { }";
    walked(&rt, alloc, NUMBERS, piece, 16, back, "accepted 2\n")
}

// Behind 32768 of the paths there are 65536 ends.
#[test]
fn one_end_of_a_body_too_many(rt: HostRuntime) -> Result<(), AllocError> {
    let alloc = rt.alloc();
    let piece = ("if (p", " > 0) { }\n");
    let back = "let d = alloc na;\nwhile (d > 1) { }\n}\nproc main() { }";
    let said = "failed f 19:1 paths\n";
    walked(&rt, alloc, NUMBERS, piece, 16, back, said)
}

// What waits to be followed takes no room on the stack.
#[test]
fn branches_and_loops_in_a_row(rt: HostRuntime) -> Result<(), AllocError> {
    let alloc = rt.alloc();
    let front = "proc main() {\n";
    for (before, after) in [("if (0 > ", ") { }\n"), ("while (0 > ", ") { }\n")] {
        let piece = (before, after);
        walked(&rt, alloc, front, piece, 3000, "}", "accepted 1\n")?;
        let said = "failed main 3002:1 assert\n";
        walked(&rt, alloc, front, piece, 3000, "assert (0 == 1);\n}", said)?;
    }
    Ok(())
}

// Each `alloc` makes a symbol, and so does what comes behind a loop for each variable that its body sets.
#[test]
fn the_most_symbols_of_a_path(rt: HostRuntime) -> Result<(), AllocError> {
    let alloc = rt.alloc();
    let front = "proc main() { let x = 0; let y = 0;\n";
    for (before, after, most, said) in [
        (
            "x = alloc na; // ",
            "\n",
            512,
            "failed main 514:1 symbols\n",
        ),
        (
            "while (false) { x = ",
            "; y = 1; }\n",
            256,
            "failed main 258:1 symbols\n",
        ),
    ] {
        let piece = (before, after);
        walked(&rt, alloc, front, piece, most, "}", "accepted 1\n")?;
        walked(&rt, alloc, front, piece, most + 1, "}", said)?;
    }
    Ok(())
}

// 512 cells at the numbers from 0 to 510 and at 777, and then one more, before the body and in it.
#[test]
fn the_most_chunks_of_a_path(rt: HostRuntime) -> Result<(), AllocError> {
    let alloc = rt.alloc();
    let piece = ("", " |-> _ &*& ");
    for (back, said) in [
        ("777 |-> _) { } proc main() { }", "accepted 2\n"),
        (
            "777 |-> _ &*& 778 |-> _) { } proc main() { }",
            "failed f 1:1 chunks\n",
        ),
        (
            "777 |-> _) {\n  let d = alloc na;\n}\nproc main() { }",
            "failed f 2:3 chunks\n",
        ),
        (
            "777 |->[1] _ &*& 777 |->[1] _) { } proc main() { }",
            "accepted 2\n",
        ),
    ] {
        walked(&rt, alloc, "proc f() requires (", piece, 511, back, said)?;
    }
    Ok(())
}

// Two texts behind one another.
fn joined(alloc: Global, one: &str, other: &str) -> Result<String, AllocError> {
    let mut text = String::new(alloc);
    text.push_str(one)?;
    text.push_str(other)?;
    Ok(text)
}

// Forty procedures, of which those with one of two numbers fail; the last is `main`.
fn forty(alloc: Global, one: u32, other: u32) -> Result<String, AllocError> {
    let mut text = String::new(alloc);
    for number in 1..40 {
        let body = if number == one {
            "assert (0 == 1);"
        } else if number == other {
            "store na(1, 1);"
        } else {
            "assert (1 == 1);"
        };
        text.push_str(format!(in alloc; "proc p{number}() {{ {body} }}\n")?.as_str())?;
    }
    text.push_str("proc main() { }")?;
    Ok(text)
}

#[test]
fn the_first_procedure_that_fails_is_named(rt: HostRuntime) -> Result<(), Fail> {
    let alloc = rt.alloc();
    for (one, other, status, said) in [
        (7, 23, 1, "failed p7 7:13 assert\n"),
        (23, 7, 1, "failed p7 7:13 points\n"),
        (0, 0, 0, "accepted 40\n"),
    ] {
        let text = forty(alloc, one, other)?;
        for workers in [1, 8, 64] {
            let mut shelf = shelf(alloc, text.as_bytes(), &[])?;
            let mut sink = MemSink::new(alloc, 128, List::new(alloc))?;
            let got = check_cmd(&rt, alloc, "f", workers, &mut shelf, &mut sink, &OpenGate);
            assert_eq!(rt; got, Status(status), "{workers} workers");
            assert_eq!(rt; sink.written(), said.as_bytes(), "{workers} workers");
        }
    }
    Ok(())
}
