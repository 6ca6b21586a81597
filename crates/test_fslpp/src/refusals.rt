//! Refusals, each with its place: tokens, syntax, names, modes and banks. The programs whose answer is `refused form`
//! are programs, but none that `check` covers.
use crate::running::answers;
use std::alloc::Global;
use std::process::Abort;
use std::thread::Threads;

// Tokens, syntax and nesting, in this order.
const TEXTS: [(&str, &str); 13] = [
    ("", "refused type 1:1 nomain\n"),
    ("proc main() { let d =", "refused syntax 1:22\n"),
    (
        "proc main() {\n  let x = 1 / 2;\n}",
        "refused token 2:13 char\n",
    ),
    (
        "proc main() { print(9223372036854775809); }",
        "refused token 1:21 number\n",
    ),
    (
        "proc main() { print(9223372036854775808); }",
        "accepted 1\n",
    ),
    (
        "proc main() { let nnnnnnnnnnnnnnnnnnnnnnnnnnnnnnnnnnnnnnnnnnnnnnnnnnnnnnnnnnnnnnnnn = 1; }",
        "refused token 1:19 name\n",
    ),
    (
        "proc main() { assert (1 == 1 == 1); }",
        "refused syntax 1:30\n",
    ),
    (
        "proc main() { print(((((((((((((((((((((((((((((((((((((((((((((((((((((((((((((((1))))))))))))))))))))))))))))))))))))))))))))))))))))))))))))))); }",
        "accepted 1\n",
    ),
    (
        "proc main() { print((((((((((((((((((((((((((((((((((((((((((((((((((((((((((((((((1)))))))))))))))))))))))))))))))))))))))))))))))))))))))))))))))); }",
        "refused deep 1:83\n",
    ),
    ("proc größe() { }", "refused type 1:17 nomain\n"),
    (
        "// größe\nproc main() { print(größe); }",
        "refused type 2:21 unknown\n",
    ),
    (
        "pred p() { emp } proc main() { print(x); }",
        "refused form\n",
    ),
    (
        "proc f() requires (p()) { } proc main() { }",
        "refused form\n",
    ),
];

// Unknown names, names that stand for something already, and where names end.
const NAMES: [(&str, &str); 27] = [
    (
        "proc main() { let a = 1; print(b); }",
        "refused type 1:32 unknown\n",
    ),
    ("proc main() { call f(); }", "refused type 1:20 unknown\n"),
    (
        "proc main() { par { f(); g(); } }",
        "refused type 1:21 unknown\n",
    ),
    (
        "proc main() { let a = alloc acq I(); }",
        "refused type 1:33 unknown\n",
    ),
    ("proc main() { a = 1; }", "refused type 1:15 unknown\n"),
    (
        "proc main() { if (true) { let a = 1; } print(a); }",
        "refused type 1:46 unknown\n",
    ),
    (
        "proc main() { call f(x, y); }",
        "refused type 1:20 unknown\n",
    ),
    (
        "proc f() { } proc f() { } proc main() { }",
        "refused type 1:19 twice\n",
    ),
    (
        "inv f() of v { emp } inv f() of v { emp } proc main() { }",
        "refused type 1:26 twice\n",
    ),
    (
        "inv f() of v { emp } proc f() { } proc main() { }",
        "accepted 2\n",
    ),
    (
        "proc f(a, a) { } proc main() { }",
        "refused type 1:11 twice\n",
    ),
    (
        "inv f(a) of a { emp } proc main() { }",
        "refused type 1:13 twice\n",
    ),
    (
        "proc main() { let a = 1; let a = 2; }",
        "refused type 1:30 twice\n",
    ),
    (
        "proc main() { let a = 1; bank a; }",
        "refused type 1:31 twice\n",
    ),
    (
        "proc main() { let a = 1; if (true) { let a = 2; } }",
        "refused type 1:42 twice\n",
    ),
    (
        "proc main() { if (true) { let a = 1; } else { let a = 2; } }",
        "accepted 1\n",
    ),
    (
        "proc main() { if (true) { let a = 1; } let a = 2; }",
        "accepted 1\n",
    ),
    (
        "proc f(d) requires (d |-> ?d) { } proc main() { }",
        "refused type 1:28 twice\n",
    ),
    (
        "proc f(d) requires (d |-> ?x &*& d |-> ?x) { } proc main() { }",
        "refused type 1:41 twice\n",
    ),
    (
        "proc f(d) requires (if (d == 0) { d |-> ?x } else { d |-> ?x }) { } proc main() { }",
        "accepted 2\n",
    ),
    (
        "proc f(d) requires (d |-> ?x) ensures (d |-> x) { } proc main() { }",
        "accepted 2\n",
    ),
    (
        "proc f(d) ensures (d |-> ?x) { print(x); } proc main() { }",
        "refused type 1:38 unknown\n",
    ),
    (
        "proc f(d) requires (up(d |-> ?x) &*& x == 1) { } proc main() { }",
        "refused type 1:38 unknown\n",
    ),
    (
        "proc f(d) requires (d |->[x] ?x) { } proc main() { }",
        "refused type 1:27 unknown\n",
    ),
    (
        "inv I(d) of v { d |-> ?x } { x == 1 } proc main() { }",
        "refused type 1:30 unknown\n",
    ),
    (
        "proc f(d) { while (true) inv (d |-> ?x) { print(x); } } proc main() { }",
        "refused type 1:49 unknown\n",
    ),
    (
        "proc f(d) { fence rel (d |-> ?x); print(x); } proc main() { }",
        "refused type 1:41 unknown\n",
    ),
];

// Modes, assignments, banks and numbers, `result`, `return`.
const SORTS: [(&str, &str); 46] = [
    (
        "proc main() { let x = load na(1); }",
        "failed main 1:15 points\n",
    ),
    (
        "proc main() { let x = load rlx(1); }",
        "failed main 1:15 init\n",
    ),
    (
        "proc main() { let x = load acq(1); }",
        "failed main 1:15 init\n",
    ),
    (
        "proc main() { let x = load rel(1); }",
        "refused type 1:28 type\n",
    ),
    (
        "proc main() { let x = load acqrel(1); }",
        "refused type 1:28 type\n",
    ),
    (
        "proc main() { let x = fetch_add na(1, 1); }",
        "refused type 1:33 type\n",
    ),
    (
        "proc main() { let x = fetch_add rlx(1, 1); }",
        "refused form\n",
    ),
    (
        "proc main() { let x = fetch_add acq(1, 1); }",
        "refused form\n",
    ),
    (
        "proc main() { let x = fetch_add rel(1, 1); }",
        "refused form\n",
    ),
    (
        "proc main() { let x = fetch_add acqrel(1, 1); }",
        "refused form\n",
    ),
    (
        "proc main() { store na(1, 1); }",
        "failed main 1:15 points\n",
    ),
    (
        "proc main() { let x = cas rel na(1, 1, 2); }",
        "refused type 1:31 type\n",
    ),
    ("proc main() { store rlx(1, 1); }", "failed main 1:15 rel\n"),
    (
        "proc main() { let x = cas rel rlx(1, 1, 2); }",
        "refused form\n",
    ),
    (
        "proc main() { store acq(1, 1); }",
        "refused type 1:21 type\n",
    ),
    (
        "proc main() { let x = cas rel acq(1, 1, 2); }",
        "refused form\n",
    ),
    ("proc main() { store rel(1, 1); }", "failed main 1:15 rel\n"),
    (
        "proc main() { let x = cas rel rel(1, 1, 2); }",
        "refused type 1:31 type\n",
    ),
    (
        "proc main() { store acqrel(1, 1); }",
        "refused type 1:21 type\n",
    ),
    (
        "proc main() { let x = cas rel acqrel(1, 1, 2); }",
        "refused type 1:31 type\n",
    ),
    (
        "proc main() { let x = exchange na(1, 1); }",
        "refused type 1:32 type\n",
    ),
    (
        "proc f(a) { a = 1; } proc main() { }",
        "refused type 1:13 type\n",
    ),
    (
        "proc f(bank g) { g = 1; } proc main() { }",
        "refused type 1:18 type\n",
    ),
    ("proc main() { let a = 1; a = 2; }", "accepted 1\n"),
    (
        "proc f(bank g) { print(g); } proc main() { }",
        "refused type 1:24 type\n",
    ),
    (
        "proc f(bank g) { print(1 + g); } proc main() { }",
        "refused type 1:28 type\n",
    ),
    (
        "proc main() { let a = 1; mint(a, 1); }",
        "refused type 1:31 type\n",
    ),
    (
        "proc f(bank g) { } proc main() { bank b; call f(b); }",
        "refused form\n",
    ),
    (
        "proc f(bank g) { } proc main() { let b = 1; call f(b); }",
        "refused type 1:52 type\n",
    ),
    (
        "proc f(bank g) { } proc main() { bank b; call f((b)); }",
        "refused type 1:49 type\n",
    ),
    (
        "proc f(bank g) { } proc main() { call f(x + 1); }",
        "refused type 1:41 type\n",
    ),
    (
        "proc f(bank g) { } proc main() { call f(x); }",
        "refused type 1:41 unknown\n",
    ),
    (
        "proc f(a) { } proc main() { bank b; call f(b); }",
        "refused type 1:44 type\n",
    ),
    (
        "proc f() requires (result == 1) { } proc main() { }",
        "refused type 1:20 type\n",
    ),
    (
        "proc f() ensures (result == 1) { } proc main() { }",
        "failed f 1:34 post\n",
    ),
    ("proc main() { print(result); }", "refused type 1:21 type\n"),
    (
        "proc main() { while (true) { return; } }",
        "refused type 1:30 type\n",
    ),
    (
        "proc main() { while (true) { if (true) { return 1; } } }",
        "refused type 1:42 type\n",
    ),
    ("proc main() { if (true) { return; } }", "accepted 1\n"),
    (
        "proc main() { while (false) { } return 1; }",
        "accepted 1\n",
    ),
    (
        "proc main() { while (result == 1) { } }",
        "refused type 1:22 type\n",
    ),
    (
        "proc main() { fence rel (result == 1); }",
        "refused type 1:26 type\n",
    ),
    (
        "inv I() of v { v == result } proc main() { }",
        "refused type 1:21 type\n",
    ),
    (
        "proc f(bank g) requires (g == 1) { } proc main() { }",
        "refused type 1:26 type\n",
    ),
    (
        "inv I(bank g) of v { v == g } proc main() { }",
        "refused type 1:27 type\n",
    ),
    (
        "proc f(x) requires (Tok(x, 1)) { } proc main() { }",
        "refused type 1:25 type\n",
    ),
];

// The status that goes with a text.
fn status(said: &str) -> u8 {
    if said.starts_with("accepted") {
        0
    } else if said.starts_with("failed") {
        1
    } else {
        3
    }
}

// That `check` answers a program so.
pub fn is_answered<R: Threads + Sync + Abort>(rt: &R, alloc: Global, text: &str, said: &str) {
    let words = ["fslpp", "check", "f"];
    answers(rt, alloc, &words, text.as_bytes(), status(said), said);
}

#[test]
fn refusals_have_their_places(rt: HostRuntime) {
    for (text, said) in TEXTS {
        is_answered(&rt, rt.alloc(), text, said);
    }
}

#[test]
fn names_end_with_their_block(rt: HostRuntime) {
    for (text, said) in NAMES {
        is_answered(&rt, rt.alloc(), text, said);
    }
}

#[test]
fn sorts_and_modes(rt: HostRuntime) {
    for (text, said) in SORTS {
        is_answered(&rt, rt.alloc(), text, said);
    }
}
