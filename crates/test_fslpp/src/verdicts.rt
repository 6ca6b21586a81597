//! Verdicts on programs with branches, loops and contracts, each worked out by the rules. Calls, atomic locations, and the
//! limits of paths, symbols and chunks, stand in tests of their own.
use crate::refusals::is_answered;

// Each kind of failure, at a statement, at a `return` and at the closing brace where it can be.
const FAILURES: [(&str, &str); 23] = [
    (
        "proc f(p) requires (p |-> _) { let x = load na(p); } proc main() { }",
        "failed f 1:32 uninit\n",
    ),
    (
        "proc f() ensures (result |-> 1) { let d = alloc na; return d; } proc main() { }",
        "failed f 1:53 uninit\n",
    ),
    (
        "proc f(p) requires (p |-> _) ensures (p |-> ?v) { } proc main() { }",
        "failed f 1:51 uninit\n",
    ),
    (
        "proc f(p) { store na(p, 1); } proc main() { }",
        "failed f 1:13 points\n",
    ),
    (
        "proc f(p) ensures (p |-> _) { } proc main() { }",
        "failed f 1:31 points\n",
    ),
    (
        "proc f(p, q) requires (p |-> 1) { if (p == q) { store na(q, 2); } else { store na(q, 3); } } proc main() { }",
        "failed f 1:74 points\n",
    ),
    (
        "proc f(p) requires (p |->[1] _) { store na(p, 1); } proc main() { }",
        "failed f 1:35 share\n",
    ),
    (
        "proc f(p) requires (p |->[4] _) ensures (p |->[5] _) { } proc main() { }",
        "failed f 1:56 share\n",
    ),
    (
        "proc f(p, s) requires (p |->[s] _) ensures (p |->[s - 1] _) { } proc main() { }",
        "failed f 1:63 share\n",
    ),
    (
        "proc f(p) ensures (p |->[0] _) { } proc main() { }",
        "failed f 1:34 share\n",
    ),
    (
        "proc f(p) requires (p |-> 1) ensures (p |-> 2) { } proc main() { }",
        "failed f 1:50 value\n",
    ),
    (
        "proc f(p) requires (p |-> ?v) ensures (p |-> v) { let w = load na(p); store na(p, w + 1); } proc main() { }",
        "failed f 1:91 value\n",
    ),
    (
        "proc f(x) { if (x < 0) { assert (x < 1); } else { assert (0 < x); } } proc main() { }",
        "failed f 1:51 assert\n",
    ),
    (
        "proc f(x) requires (2 * x == 6) { assert (x == 3); } proc main() { }",
        "failed f 1:35 assert\n",
    ),
    (
        "proc f() ensures (result == 1) { } proc main() { }",
        "failed f 1:34 post\n",
    ),
    (
        "proc f(x) ensures (result > x) { if (x < 0) { return 0; } return x; } proc main() { }",
        "failed f 1:59 post\n",
    ),
    (
        "proc f(p) requires (p |-> ?v) ensures (p |-> ?w &*& w > v) { } proc main() { }",
        "failed f 1:62 post\n",
    ),
    (
        "proc main() { let i = 4; while (i < 3) inv (i <= 3) { i = i + 1; } }",
        "failed main 1:26 loop\n",
    ),
    (
        "proc main() { let i = 0; while (i < 3) inv (i <= 3) { i = i + 2; } }",
        "failed main 1:26 loop\n",
    ),
    (
        "proc f(x, y) { let z = x * y; } proc main() { }",
        "failed f 1:16 term\n",
    ),
    (
        "proc f(x, y) { if (x * y == 0) { } } proc main() { }",
        "failed f 1:16 term\n",
    ),
    (
        "proc f(x) { print(16777216 * x); print(16777217 * x); } proc main() { }",
        "failed f 1:34 term\n",
    ),
    (
        "proc f(x) ensures (result == x * x) { } proc main() { }",
        "failed f 1:39 term\n",
    ),
];

// A failure before the first statement has the first place of the file; facts that are absurd there leave no path.
const START: [(&str, &str); 2] = [
    (
        "\nproc f(x, y) requires (x * y == 0) { } proc main() { }",
        "failed f 1:1 term\n",
    ),
    (
        "\nproc f(x) requires (0 == 1) { assert (0 == 1); } proc main() { }",
        "accepted 2\n",
    ),
];

// What contracts say of cells and shares.
const SHARES: [(&str, &str); 7] = [
    (
        "proc f(p) requires (p |->[5] _) ensures (p |->[4] _) { } proc main() { }",
        "accepted 2\n",
    ),
    (
        "proc f(p, s) requires (p |->[s] 3 &*& s >= 2) ensures (p |->[s - 1] 3) { } proc main() { }",
        "accepted 2\n",
    ),
    (
        "proc f(p) requires (p |-> ?v) ensures (p |-> v + 1) { let w = load na(p); store na(p, w + 1); } proc main() { }",
        "accepted 2\n",
    ),
    (
        "proc f(p) requires (p |->[4611686018427387904] ?v &*& p |->[4611686018427387904] ?w) ensures (v == w &*& p |-> 7) { store na(p, 7); } proc main() { }",
        "accepted 2\n",
    ),
    (
        "proc f(p, x) requires (if (x == 0) { emp } else { p |-> _ }) ensures (if (x == 0) { emp } else { p |-> 1 }) { if (x != 0) { store na(p, 1); } } proc main() { }",
        "accepted 2\n",
    ),
    (
        "proc f(p, q) requires (p |-> 1 &*& q |-> 2) ensures (p |-> 2 &*& q |-> 1) { let x = load na(p); let y = load na(q); store na(p, y); store na(q, x); } proc main() { }",
        "accepted 2\n",
    ),
    (
        "proc f(x, y) requires (y == 2) { let z = x * y; assert (z == x + x); } proc main() { }",
        "accepted 2\n",
    ),
];

// Loops: cells of the invariant and of the frame, what the body changes, what fails first.
const LOOPS: [(&str, &str); 17] = [
    (
        "proc main() { let d = alloc na; store na(d, 0); let i = 0; while (i < 3) inv (d |-> ?n &*& n == i &*& i <= 3) { let m = load na(d); store na(d, m + 1); i = i + 1; } let x = load na(d); assert (x == 3); }",
        "accepted 1\n",
    ),
    (
        "proc main() { let d = alloc na; store na(d, 0); let i = 0; while (i < 3) inv (d |-> ?n &*& n == i &*& i <= 3) { i = i + 1; } }",
        "failed main 1:60 loop\n",
    ),
    (
        "proc main() { let d = alloc na; store na(d, 7); let i = 0; while (i < 3) inv (i <= 3) { i = i + 1; } let x = load na(d); assert (x == 7); }",
        "accepted 1\n",
    ),
    (
        "proc main() { let d = alloc na; let i = 0; while (i < 3) inv (i <= 3) { store na(d, i); i = i + 1; } }",
        "failed main 1:73 points\n",
    ),
    (
        "proc main() { let d = alloc na; store na(d, 7); let i = 0; while (i < 3) inv (d |-> _) { i = i + 1; } let x = load na(d); }",
        "failed main 1:103 uninit\n",
    ),
    (
        "proc main() { let x = 1; let i = 0; while (i < 3) { if (i == 0) { x = 2; } i = i + 1; } assert (x == 1); }",
        "failed main 1:89 assert\n",
    ),
    (
        "proc main() { let x = 1; let i = 0; while (i < 3) { let y = x; i = i + y; } assert (x == 1); }",
        "accepted 1\n",
    ),
    (
        "proc main() { let i = 9; while (i < 3) inv (i <= 3) { assert (0 == 1); } }",
        "failed main 1:26 loop\n",
    ),
    (
        "proc main() { let i = 0; while (i < 3) inv (i <= 3) { assert (i == 0); i = i + 5; } }",
        "failed main 1:55 assert\n",
    ),
    (
        "proc main() { let i = 0; while (i < 3) inv (i <= 3) { i = i + 5; } assert (0 == 1); }",
        "failed main 1:26 loop\n",
    ),
    (
        "proc main() { let i = 0; while (i < 3) inv (i <= 3) { i = i + 1; } assert (0 == 1); }",
        "failed main 1:68 assert\n",
    ),
    ("proc main() { while (true) { } }", "accepted 1\n"),
    (
        "proc main() { while (false) { assert (0 == 1); } }",
        "accepted 1\n",
    ),
    (
        "proc main() { while (true) { } assert (0 == 1); }",
        "accepted 1\n",
    ),
    (
        "proc main() { let i = 0; while (i != 3) inv (i <= 3) { i = i + 1; } assert (i == 3); }",
        "accepted 1\n",
    ),
    (
        "proc main() { let i = 0; while (i < 3) inv (i <= 3) { let j = i; while (j < 3) inv (j <= 3) { j = j + 1; } i = j; } assert (i == 3); }",
        "accepted 1\n",
    ),
    (
        "proc main() { let i = 0; while (i < 3) inv (i <= 3) { let j = i; while (j < 3) inv (i == j) { j = j + 1; } i = j; } }",
        "failed main 1:66 loop\n",
    ),
];

// Branches in their order. A branch that contradicts the facts is left out.
const BRANCHES: [(&str, &str); 11] = [
    (
        "proc f(x) requires (x > 3) { if (x > 1) { assert (x > 2); } else { assert (0 == 1); } } proc main() { }",
        "accepted 2\n",
    ),
    (
        "proc main() { if (true) { } else { assert (0 == 1); } if (false) { assert (0 == 1); } }",
        "accepted 1\n",
    ),
    (
        "proc f(x) { if (x < 0) { return; } assert (x >= 0); } proc main() { }",
        "accepted 2\n",
    ),
    (
        "proc f(x) { if (x == 0) { assert (x == 1); } else { assert (x == 2); } } proc main() { }",
        "failed f 1:27 assert\n",
    ),
    (
        "proc f(x) { if (x == 0) { } else { if (x < 0) { store na(x, 1); } else { assert (x == 2); } } } proc main() { }",
        "failed f 1:49 points\n",
    ),
    (
        "proc f(x) { if (x != 0) { if (x < 0) { store na(x, 1); } else { assert (x == 2); } } else { assert (x == 1); } } proc main() { }",
        "failed f 1:40 points\n",
    ),
    (
        "proc f(x) { if (x != 0) { if (x < 0) { } else { assert (x == 2); } } else { store na(x, 1); } } proc main() { }",
        "failed f 1:49 assert\n",
    ),
    (
        "proc f(x) { if (x <= 0) { assert (x == 0); } else { store na(x, 1); } } proc main() { }",
        "failed f 1:27 assert\n",
    ),
    (
        "proc f(x) { if (x > 0) { assert (x == 1); } else { store na(x, 1); } } proc main() { }",
        "failed f 1:26 assert\n",
    ),
    (
        "proc f(x) { let y = 0; if (x <= 0) { y = 1; } else { store na(x, 1); } assert (y == 0); } proc main() { }",
        "failed f 1:72 assert\n",
    ),
    (
        "proc f(x) requires (x >= 0) { if (x == 0) { } else { assert (x > 0); } } proc main() { }",
        "accepted 2\n",
    ),
];

#[test]
fn each_kind_of_failure_has_its_place(rt: HostRuntime) {
    for (text, said) in FAILURES {
        is_answered(&rt, rt.alloc(), text, said);
    }
}

#[test]
fn a_procedure_starts_with_its_requires(rt: HostRuntime) {
    for (text, said) in START {
        is_answered(&rt, rt.alloc(), text, said);
    }
}

#[test]
fn contracts_of_cells(rt: HostRuntime) {
    for (text, said) in SHARES {
        is_answered(&rt, rt.alloc(), text, said);
    }
}

#[test]
fn loops(rt: HostRuntime) {
    for (text, said) in LOOPS {
        is_answered(&rt, rt.alloc(), text, said);
    }
}

#[test]
fn branches_in_their_order(rt: HostRuntime) {
    for (text, said) in BRANCHES {
        is_answered(&rt, rt.alloc(), text, said);
    }
}
