//! Verdicts on programs with atomic locations, fences and frees: each kind of failure with its place, and the most symbols
//! and chunks. The orders of their branches stand in the tables of `test_rules`.
use crate::limits::repeated;
use crate::refusals::is_answered;
use std::alloc::AllocError;

// Each kind of failure.
const FAILURES: [(&str, &str); 22] = [
    (
        "proc f(l) { let x = load acq(l); } proc main() { }",
        "failed f 1:13 init\n",
    ),
    (
        "proc f(l) { let x = load rlx(l); } proc main() { }",
        "failed f 1:13 init\n",
    ),
    (
        "inv Any() of v { emp } proc main() { let l = alloc acq Any(); let x = load acq(l); }",
        "failed main 1:63 init\n",
    ),
    (
        "proc f(l) ensures (Init(l)) { } proc main() { }",
        "failed f 1:31 init\n",
    ),
    (
        "proc f(l) { store rel(l, 0); } proc main() { }",
        "failed f 1:13 rel\n",
    ),
    (
        "proc f(l) { store rlx(l, 0); } proc main() { }",
        "failed f 1:13 rel\n",
    ),
    (
        "inv Low(k) of v { v <= k } proc f(l) requires (Rel(l, Low(5))) ensures (Rel(l, Low(6))) { } proc main() { }",
        "failed f 1:91 rel\n",
    ),
    (
        "inv Any() of v { emp } proc f(l) requires (Acq(l, Any(), 0, {})) ensures (Acq(l, Any(), 0, {})) { let x = 1; } proc g(l) requires (Init(l) &*& Acq(l, Any(), 0, {})) ensures (Acq(l, Any(), 0, {})) { let x = load acq(l); } proc main() { }",
        "failed g 1:220 acq\n",
    ),
    (
        "inv Low(k) of v { v <= k } proc main() { let l = alloc acq Low(5); store rel(l, 5); store rel(l, 6); }",
        "failed main 1:85 cond\n",
    ),
    (
        "inv Low(k) of v { v <= k } proc main() { let l = alloc acq Low(5); store rlx(l, 6); }",
        "failed main 1:68 cond\n",
    ),
    (
        "proc f(x) { fence rel (x < 5); } proc main() { }",
        "failed f 1:13 cond\n",
    ),
    (
        "inv Flag(d) of v { if (v == 0) { emp } else { d |-> 7 } } proc main() { let d = alloc na; store na(d, 7); let l = alloc acq Flag(d); store rlx(l, 1); }",
        "failed main 1:134 points\n",
    ),
    (
        "proc f(d) requires (d |-> 7) { fence rel (d |-> 7); let x = load na(d); } proc main() { }",
        "failed f 1:53 points\n",
    ),
    (
        "proc main() { let d = alloc na; free(d); free(d); }",
        "failed main 1:42 points\n",
    ),
    (
        "proc main() { let d = alloc na; store na(d, 1); free(d); let x = load na(d); }",
        "failed main 1:58 points\n",
    ),
    (
        "proc f(d) requires (d |->[4] _) { free(d); } proc main() { }",
        "failed f 1:35 share\n",
    ),
    (
        "proc f(d) requires (d |->[4] 7) { fence rel (d |->[5] 7); } proc main() { }",
        "failed f 1:35 share\n",
    ),
    (
        "proc f(d) requires (d |-> 8) { fence rel (d |-> 7); } proc main() { }",
        "failed f 1:32 value\n",
    ),
    (
        "proc f(d) requires (d |-> _) { fence rel (d |-> ?x); } proc main() { }",
        "failed f 1:32 uninit\n",
    ),
    (
        "inv Low(k) of v { v <= k } proc f(x) { let l = alloc acq Low(x * x); } proc main() { }",
        "failed f 1:40 term\n",
    ),
    (
        "inv Square() of v { v * v == 0 } proc f(l) requires (Init(l) &*& Acq(l, Square(), 0, {})) { let x = load acq(l); } proc main() { }",
        "failed f 1:93 term\n",
    ),
    (
        "proc f(x) { free(x * x); } proc main() { }",
        "failed f 1:13 term\n",
    ),
];

// The most symbols, and one more: the front of a program, a piece with its number behind its first half, how often it
// stands, the back. Each load makes one, and so do an allocation and a binder.
const SYMBOLS: [(&str, &str, &str, u32, &str, &str); 8] = [
    (
        "proc f(l) requires (Init(l)) {\nlet x = 0;\n",
        "x = load acq(l); // ",
        "\n",
        511,
        "}\nproc main() { }",
        "accepted 2\n",
    ),
    (
        "proc f(l) requires (Init(l)) {\nlet x = 0;\n",
        "x = load acq(l); // ",
        "\n",
        512,
        "}\nproc main() { }",
        "failed f 514:1 symbols\n",
    ),
    (
        "proc f(l) requires (Init(l)) {\nlet x = 0;\n",
        "x = load rlx(l); // ",
        "\n",
        511,
        "}\nproc main() { }",
        "accepted 2\n",
    ),
    (
        "proc f(l) requires (Init(l)) {\nlet x = 0;\n",
        "x = load rlx(l); // ",
        "\n",
        512,
        "}\nproc main() { }",
        "failed f 514:1 symbols\n",
    ),
    (
        "inv Any() of v { emp }\nproc f(l) requires (Init(l)) {\nlet x = 0;\n",
        "x = load rlx(l); // ",
        "\n",
        511,
        "let m = alloc acq Any();\n}\nproc main() { }",
        "failed f 515:1 symbols\n",
    ),
    (
        "proc f(l) requires (Init(l) &*& l |-> 7) {\nlet x = 0;\n",
        "x = load rlx(l); // ",
        "\n",
        510,
        "fence rel (l |-> ?y);\n}\nproc main() { }",
        "accepted 2\n",
    ),
    (
        "proc f(l) requires (Init(l) &*& l |-> 7) {\nlet x = 0;\n",
        "x = load rlx(l); // ",
        "\n",
        511,
        "fence rel (l |-> ?y);\n}\nproc main() { }",
        "failed f 514:1 symbols\n",
    ),
    (
        "proc f(l) requires (Init(l) &*& l |-> 7) {\nlet x = 0;\n",
        "x = load rlx(l); // ",
        "\n",
        511,
        "fence rel (l |-> _);\n}\nproc main() { }",
        "accepted 2\n",
    ),
];

// The most chunks of allocations, and one more, likewise. An allocation of eight parts is nine chunks.
const ALLOCATED: [(&str, &str, &str, u32, &str, &str); 7] = [
    (
        "inv Many() of v { emp } { emp } { emp } { emp } { emp } { emp } { emp } { emp }\nproc main() {\n",
        "let l",
        " = alloc acq Many();\n",
        56,
        "}",
        "accepted 1\n",
    ),
    (
        "inv Many() of v { emp } { emp } { emp } { emp } { emp } { emp } { emp } { emp }\nproc main() {\n",
        "let l",
        " = alloc acq Many();\n",
        57,
        "}",
        "failed main 59:1 chunks\n",
    ),
    (
        "inv Any() of v { emp }\nproc main() {\nlet l = 0;\n",
        "l = alloc acq Any(); // ",
        "\n",
        256,
        "}",
        "accepted 1\n",
    ),
    (
        "inv Any() of v { emp }\nproc main() {\nlet l = 0;\n",
        "l = alloc acq Any(); // ",
        "\n",
        257,
        "}",
        "failed main 260:1 chunks\n",
    ),
    (
        "inv Any() of v { emp }\nproc main() {\nlet l = alloc na;\n",
        "l = alloc acq Any(); // ",
        "\n",
        256,
        "}",
        "failed main 259:1 chunks\n",
    ),
    (
        "inv Any() of v { emp }\nproc main() {\nlet l = alloc na;\n",
        "l = alloc rmw Any(); // ",
        "\n",
        255,
        "}",
        "accepted 1\n",
    ),
    (
        "inv Any() of v { emp }\nproc main() {\nlet l = alloc na;\n",
        "l = alloc rmw Any(); // ",
        "\n",
        256,
        "}",
        "failed main 259:1 chunks\n",
    ),
];

// The most chunks of what else adds some. A store makes a chunk where nothing was written before and nothing is given away, a
// fence where a cell is split; what an acquire fence takes is out before any of it is back.
const CHUNKS: [(&str, &str, &str, u32, &str, &str); 11] = [
    (
        "inv Any() of v { emp }\nproc main() {\nlet l = alloc acq Any();\nlet x = 0;\n",
        "x = alloc na; // ",
        "\n",
        509,
        "store rel(l, 1);\n}",
        "accepted 1\n",
    ),
    (
        "inv Any() of v { emp }\nproc main() {\nlet l = alloc acq Any();\nlet x = 0;\n",
        "x = alloc na; // ",
        "\n",
        510,
        "store rel(l, 1);\n}",
        "failed main 515:1 chunks\n",
    ),
    (
        "inv Any() of v { emp }\nproc main() {\nlet l = alloc acq Any();\nstore rel(l, 0);\nlet x = 0;\n",
        "x = alloc na; // ",
        "\n",
        509,
        "store rlx(l, 1);\n}",
        "accepted 1\n",
    ),
    (
        "inv Has(d) of v { d |-> _ }\nproc main() {\nlet d = alloc na;\nlet l = alloc acq Has(d);\nlet x = 0;\n",
        "x = alloc na; // ",
        "\n",
        509,
        "store rel(l, 1);\n}",
        "accepted 1\n",
    ),
    (
        "inv Has(d) of v { d |-> 7 }\nproc f(l) requires (Init(l) &*& Acq(l, Has(9), 0, {})) {\nlet x = 0;\n",
        "x = alloc na; // ",
        "\n",
        509,
        "x = load acq(l);\n}\nproc main() { }",
        "accepted 2\n",
    ),
    (
        "inv Has(d) of v { d |-> 7 }\nproc f(l) requires (Init(l) &*& Acq(l, Has(9), 0, {})) {\nlet x = 0;\n",
        "x = alloc na; // ",
        "\n",
        510,
        "x = load acq(l);\n}\nproc main() { }",
        "failed f 514:1 chunks\n",
    ),
    (
        "inv Has(d) of v { d |-> 7 }\nproc f(l) requires (Init(l) &*& Acq(l, Has(9), 0, {})) {\nlet x = 0;\n",
        "x = alloc na; // ",
        "\n",
        510,
        "x = load rlx(l);\n}\nproc main() { }",
        "failed f 514:1 chunks\n",
    ),
    (
        "proc f(l) requires (l |-> 7) {\nlet x = 0;\n",
        "x = alloc na; // ",
        "\n",
        511,
        "fence rel (l |-> 7);\n}\nproc main() { }",
        "accepted 2\n",
    ),
    (
        "proc f(l) requires (l |-> 7) {\nlet x = 0;\n",
        "x = alloc na; // ",
        "\n",
        511,
        "fence rel (l |->[1] 7);\n}\nproc main() { }",
        "failed f 514:1 chunks\n",
    ),
    (
        "proc f() requires (down(",
        "",
        " |-> _ &*& ",
        511,
        "777 |-> _)) {\nfence acq;\nstore na(777, 1);\n}\nproc main() { }",
        "accepted 2\n",
    ),
    (
        "proc f() requires (",
        "",
        " |->[1] _ &*& ",
        511,
        "down(5 |->[2] _)) ensures (5 |->[3] _) {\nfence acq;\n}\nproc main() { }",
        "accepted 2\n",
    ),
];

#[test]
fn each_kind_of_failure_has_its_place(rt: HostRuntime) {
    for (text, said) in FAILURES {
        is_answered(&rt, rt.alloc(), text, said);
    }
}

#[test]
fn the_most_symbols(rt: HostRuntime) -> Result<(), AllocError> {
    for (front, before, after, count, back, said) in SYMBOLS {
        let text = repeated(rt.alloc(), front, (before, after), count, back)?;
        is_answered(&rt, rt.alloc(), text.as_str(), said);
    }
    Ok(())
}

#[test]
fn the_most_allocations(rt: HostRuntime) -> Result<(), AllocError> {
    for (front, before, after, count, back, said) in ALLOCATED {
        let text = repeated(rt.alloc(), front, (before, after), count, back)?;
        is_answered(&rt, rt.alloc(), text.as_str(), said);
    }
    Ok(())
}

#[test]
fn the_most_chunks(rt: HostRuntime) -> Result<(), AllocError> {
    for (front, before, after, count, back, said) in CHUNKS {
        let text = repeated(rt.alloc(), front, (before, after), count, back)?;
        is_answered(&rt, rt.alloc(), text.as_str(), said);
    }
    Ok(())
}
