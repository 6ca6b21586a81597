//! Verdicts on programs whose procedures call one another or run side by side, each worked out by the rules.
use crate::limits::repeated;
use crate::refusals::is_answered;
use std::alloc::{AllocError, Global};
use std::process::Abort;
use std::thread::Threads;

// Calls: what `requires` lacks and in which order, what `ensures` gives, and that nothing else is known.
const CALLS: [(&str, &str); 24] = [
    (
        "proc f(p) requires (p |-> ?v) ensures (p |-> v + 1) { let x = load na(p); store na(p, x + 1); } proc main() { let d = alloc na; store na(d, 4); call f(d); let y = load na(d); assert (y == 5); }",
        "accepted 2\n",
    ),
    (
        "proc f() { return 1; } proc main() { let x = call f(); assert (x == 1); }",
        "failed main 1:56 assert\n",
    ),
    (
        "proc f() ensures (result == 1) { return 1; } proc main() { let x = call f(); assert (x == 1); }",
        "accepted 2\n",
    ),
    (
        "proc f(p) requires (p |-> _) ensures (p |-> ?v) { store na(p, 1); } proc main() { let d = alloc na; call f(d); let x = load na(d); assert (x == 1); }",
        "failed main 1:132 assert\n",
    ),
    (
        "proc f(x) ensures (result == x + 1) { return x + 1; } proc main() { let x = 1; x = call f(x); x = call f(x); assert (x == 3); }",
        "accepted 2\n",
    ),
    (
        "proc f(x) requires (x > 0) { } proc main() { call f(1); call f(0); }",
        "failed main 1:57 pre\n",
    ),
    (
        "proc f(p) requires (p |-> _) { } proc main() { call f(3); }",
        "failed main 1:48 points\n",
    ),
    (
        "proc f(p) requires (p |-> _) { } proc g(p) requires (p |->[1] _) { call f(p); } proc main() { }",
        "failed g 1:68 share\n",
    ),
    (
        "proc f(p) requires (p |-> ?v) { } proc main() { let d = alloc na; call f(d); }",
        "failed main 1:67 uninit\n",
    ),
    (
        "proc f(p) requires (p |-> 1) { } proc main() { let d = alloc na; store na(d, 2); let x = call f(d); }",
        "failed main 1:82 value\n",
    ),
    (
        "proc f(p) requires (p |-> ?v &*& v > 1 &*& p |-> _) { } proc main() { let d = alloc na; store na(d, 1); call f(d); }",
        "failed main 1:105 pre\n",
    ),
    (
        "proc f(p) requires (p |-> _) { } proc main() { let d = alloc na; let e = alloc na; store na(e, 3); call f(d); let x = load na(e); assert (x == 3); store na(d, 1); }",
        "failed main 1:148 points\n",
    ),
    (
        "proc f(x, y) requires (x > 0) { } proc g(x) { call f(0, x * x); } proc main() { }",
        "failed g 1:47 term\n",
    ),
    (
        "proc f(p) requires (p |-> ?v) ensures (p |-> 0 &*& result == v) { let x = load na(p); store na(p, 0); return x; } proc main() { let d = alloc na; store na(d, 4); let x = call f(d); let y = call f(d); assert (x == 4); assert (y == 0); }",
        "accepted 2\n",
    ),
    (
        "proc f(x) ensures (if (x == 0) { result == 1 } else { result == 2 }) { if (x == 0) { return 1; } return 2; } proc g(x) { let y = call f(x); assert (y == 1); } proc main() { }",
        "failed g 1:141 assert\n",
    ),
    (
        "proc f(x) ensures (if (x == 0) { result == 1 } else { result == 2 }) { if (x == 0) { return 1; } return 2; } proc g(x) { let y = call f(x); if (x == 0) { assert (y == 1); } else { assert (y == 2); } } proc main() { }",
        "accepted 3\n",
    ),
    (
        "proc f(x, p) requires (if (x == 0) { p |-> _ } else { emp }) { } proc g(x, p) requires (if (x == 0) { p |-> _ } else { emp }) { call f(x, p); } proc h(x, p) { if (x != 0) { call f(x, p); } } proc main() { }",
        "accepted 4\n",
    ),
    (
        "proc f(x, p) requires (if (x == 0) { p |-> _ } else { emp }) { } proc g(x, p) { call f(x, p); } proc main() { }",
        "failed g 1:81 points\n",
    ),
    (
        "proc f() ensures (0 == 1) { call f(); } proc main() { call f(); assert (0 == 2); }",
        "accepted 2\n",
    ),
    (
        "proc f(n) requires (n >= 0) ensures (result == n) { if (n == 0) { return 0; } let r = call f(n - 1); return r + 1; } proc main() { }",
        "accepted 2\n",
    ),
    (
        "proc f(n) requires (n >= 0) ensures (result == n) { if (n == 1) { return 1; } let r = call f(n - 1); return r + 1; } proc main() { }",
        "failed f 1:79 pre\n",
    ),
    (
        "proc main() { call f(); } proc f() ensures (result == 1) { }",
        "failed f 1:60 post\n",
    ),
    (
        "proc f(p) requires (p |-> ?v) ensures (p |-> v + 1) { let x = load na(p); store na(p, x + 1); } proc main() { let d = alloc na; store na(d, 0); let i = 0; while (i < 3) inv (d |-> i &*& i <= 3) { call f(d); i = i + 1; } let x = load na(d); assert (x == 3); }",
        "accepted 2\n",
    ),
    (
        "proc f() { } proc main() { let x = 1; let i = 0; while (i < 3) inv (i <= 3) { x = call f(); i = i + 1; } assert (x == 1); }",
        "failed main 1:106 assert\n",
    ),
];

// Threads side by side: the terms of all calls come first, then each `requires`, then each `ensures`.
const THREADS: [(&str, &str); 13] = [
    (
        "proc w(d) requires (d |-> _) { store na(d, 1); } proc main() { let d = alloc na; par { w(d); w(d); } }",
        "failed main 1:82 points\n",
    ),
    (
        "proc r(d) requires (d |->[4611686018427387904] 7) ensures (d |->[4611686018427387904] 7) { } proc main() { let d = alloc na; store na(d, 7); par { r(d); r(d); } store na(d, 1); }",
        "accepted 2\n",
    ),
    (
        "proc w(d) requires (d |-> _) ensures (d |-> 1) { store na(d, 1); } proc main() { let d = alloc na; let e = alloc na; par { w(d); w(e); } let x = load na(d); let y = load na(e); assert (x + y == 2); }",
        "accepted 2\n",
    ),
    (
        "proc g(d) requires (d |-> _) { } proc f(x, y) { par { g(x); g(x * y); } } proc main() { }",
        "failed f 1:49 term\n",
    ),
    (
        "proc a(x) requires (x > 0) { } proc b(d) requires (d |-> _) { } proc main() { par { b(1); a(0); } }",
        "failed main 1:79 points\n",
    ),
    (
        "proc a(x) requires (x > 0) { } proc b(d) requires (d |-> _) { } proc main() { par { a(0); b(1); } }",
        "failed main 1:79 pre\n",
    ),
    (
        "proc a(d) ensures (result |-> 1) { let c = alloc na; store na(c, 1); return c; } proc b(d) requires (d |-> _) { } proc main() { par { a(1); b(2); } }",
        "failed main 1:129 points\n",
    ),
    (
        "proc g(d) requires (d |-> _) ensures (d |-> _) { } proc main() { let d = alloc na; par { g(d); g(d); } }",
        "failed main 1:84 points\n",
    ),
    (
        "proc r(d) requires (d |->[1] ?v) ensures (d |->[1] v) { } proc main() { let d = alloc na; store na(d, 5); par { r(d); r(d); r(d); } let x = load na(d); assert (x == 5); store na(d, 6); }",
        "accepted 2\n",
    ),
    (
        "proc r(d) requires (d |->[1] ?v) { } proc main() { let d = alloc na; store na(d, 5); par { r(d); r(d); } let x = load na(d); assert (x == 5); store na(d, 6); }",
        "failed main 1:143 share\n",
    ),
    (
        "proc f(x) requires (x > 0) ensures (x > 1) { assert (x > 0); call f(x); } proc g(y) { par { f(1); f(2); } assert (0 == 1); } proc main() { }",
        "accepted 3\n",
    ),
    (
        "proc f(d) requires (d |-> _) ensures (d |-> ?v &*& v == result) { store na(d, 3); return 3; } proc main() { let d = alloc na; let e = alloc na; par { f(d); f(e); } let x = load na(d); let y = load na(e); assert (x == y); }",
        "failed main 1:205 assert\n",
    ),
    (
        "proc f(x) ensures (if (x == 0) { emp } else { emp }) { } proc g(x, y) { par { f(x); f(y); } if (x == 0) { } else { store na(1, 1); } } proc main() { }",
        "failed g 1:116 points\n",
    ),
];

#[test]
fn calls(rt: HostRuntime) {
    for (text, said) in CALLS {
        is_answered(&rt, rt.alloc(), text, said);
    }
}

#[test]
fn threads_side_by_side(rt: HostRuntime) {
    for (text, said) in THREADS {
        is_answered(&rt, rt.alloc(), text, said);
    }
}

// That `check` answers so on a `main` in which a statement stands a number of times, each time with another argument.
fn called<R: Threads + Sync + Abort>(
    rt: &R,
    alloc: Global,
    piece: (&str, &str),
    count: u32,
    said: &str,
) -> Result<(), AllocError> {
    let front =
        "proc f(n) { }\nproc g(n) ensures (result > n) { return n + 1; }\nproc main() {\nlet x = 0;\n";
    let text = repeated(alloc, front, piece, count, "}")?;
    is_answered(rt, alloc, text.as_str(), said);
    Ok(())
}

// A path has at most 512 symbols. A call makes one where its result is kept or `ensures` speaks of it.
#[test]
fn symbols_of_calls(rt: HostRuntime) -> Result<(), AllocError> {
    let alloc = rt.alloc();
    called(&rt, alloc, ("call f(", ");\n"), 600, "accepted 3\n")?;
    called(&rt, alloc, ("x = call f(", ");\n"), 512, "accepted 3\n")?;
    let said = "failed main 517:1 symbols\n";
    called(&rt, alloc, ("x = call f(", ");\n"), 513, said)?;
    called(&rt, alloc, ("call g(", ");\n"), 512, "accepted 3\n")?;
    called(&rt, alloc, ("call g(", ");\n"), 513, said)?;
    let threads = ("par { f(", "); f(x); }\n");
    called(&rt, alloc, threads, 256, "accepted 3\n")?;
    called(&rt, alloc, threads, 257, "failed main 261:1 symbols\n")
}
