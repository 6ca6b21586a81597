//! Uses, counts and limits: programs at each limit and one past it.
use crate::refusals::is_answered;
use std::alloc::{AllocError, Global};

// Arguments, modalities, parts.
const USES: [(&str, &str); 20] = [
    (
        "proc f(a) { } proc main() { call f(); }",
        "refused type 1:34 arity\n",
    ),
    (
        "proc f(a) { } proc main() { let x = call f(1, 2); }",
        "refused type 1:42 arity\n",
    ),
    (
        "proc f(a) { } proc main() { par { f(1); f(); } }",
        "refused type 1:41 arity\n",
    ),
    (
        "inv I(a) of v { emp } proc main() { let x = alloc rmw I(); }",
        "refused type 1:55 arity\n",
    ),
    (
        "inv I(a) of v { emp } proc f(x) requires (Rel(x, I())) { } proc main() { }",
        "refused type 1:50 arity\n",
    ),
    (
        "inv I() of v { up(emp) } proc main() { }",
        "refused type 1:16 modal\n",
    ),
    (
        "inv I() of v { if (v == 0) { down(emp) } else { emp } } proc main() { }",
        "refused type 1:30 modal\n",
    ),
    (
        "proc f() requires (up(down(emp))) { } proc main() { }",
        "refused type 1:23 modal\n",
    ),
    (
        "proc main() { fence rel (up(emp)); }",
        "refused type 1:26 modal\n",
    ),
    (
        "proc main() { while (true) inv (up(emp)) { } }",
        "accepted 1\n",
    ),
    (
        "proc f() ensures (if (true) { emp } else { down(emp) }) { } proc main() { par { f(); f(); } }",
        "refused type 1:81 modal\n",
    ),
    (
        "proc f(a) ensures (up(emp)) { } proc main() { par { f(); f(); } }",
        "refused type 1:53 arity\n",
    ),
    (
        "proc f() ensures (up(emp)) { } proc main() { call f(); }",
        "accepted 2\n",
    ),
    (
        "inv I() of v { emp } { emp } { emp } { emp } { emp } { emp } { emp } { emp } proc main() { }",
        "accepted 1\n",
    ),
    (
        "inv I() of v { emp } { emp } { emp } { emp } { emp } { emp } { emp } { emp } { emp } proc main() { }",
        "refused type 1:78 parts\n",
    ),
    (
        "inv I() of v { emp } { emp } proc f(x) requires (Acq(x, I(), 1, {})) { } proc main() { }",
        "accepted 2\n",
    ),
    (
        "inv I() of v { emp } { emp } proc f(x) requires (Acq(x, I(), 2, {})) { } proc main() { }",
        "refused type 1:62 parts\n",
    ),
    (
        "inv I() of v { emp } proc f(x) requires (Acq(x, I(), 9223372036854775808, {})) { } proc main() { }",
        "refused type 1:54 parts\n",
    ),
    (
        "proc f(x) requires (Acq(x, I(), 9, {})) { } proc main() { }",
        "refused type 1:28 unknown\n",
    ),
    (
        "proc f(x) requires (Acq(x, I(), 8, {})) { } inv I() of v { emp } { emp } { emp } { emp } { emp } { emp } { emp } { emp } { emp }  proc main() { }",
        "refused type 1:122 parts\n",
    ),
];

// Counts, `main`, the first of several faults.
const COUNTS: [(&str, &str); 22] = [
    (
        "proc f(p0, p1, p2, p3, p4, p5, p6, p7, p8, p9, p10, p11, p12, p13, p14, p15) { } proc main() { }",
        "accepted 2\n",
    ),
    (
        "proc f(p0, p1, p2, p3, p4, p5, p6, p7, p8, p9, p10, p11, p12, p13, p14, p15, p16) { } proc main() { }",
        "refused type 1:78 count\n",
    ),
    (
        "proc f(p0, p1, p2, p3, p4, p5, p6, p7, p8, p9, p10, p11, p12, p13, p14, p15, p0) { } proc main() { }",
        "refused type 1:78 twice\n",
    ),
    (
        "inv I() of v { emp } proc f(x) requires (Acq(x, I(), 0, {0, 0, 0, 0, 0, 0, 0, 0, 0, 0, 0, 0, 0, 0, 0, 0})) { } proc main() { }",
        "accepted 2\n",
    ),
    (
        "inv I() of v { emp } proc f(x) requires (Acq(x, I(), 0, {0, 0, 0, 0, 0, 0, 0, 0, 0, 0, 0, 0, 0, 0, 0, 0, 0})) { } proc main() { }",
        "refused type 1:106 count\n",
    ),
    (
        "proc f() { } proc main() { par { } }",
        "refused type 1:28 count\n",
    ),
    (
        "proc f() { } proc main() { par { f(); } }",
        "refused type 1:28 count\n",
    ),
    (
        "proc f() { } proc main() { par { f(); f(); } }",
        "accepted 2\n",
    ),
    (
        "proc f() { } proc main() { par { f(); f(); f(); f(); f(); f(); f(); f(); } }",
        "accepted 2\n",
    ),
    (
        "proc f() { } proc main() { par { f(); f(); f(); f(); f(); f(); f(); f(); f(); } }",
        "refused type 1:28 count\n",
    ),
    ("proc f() { }", "refused type 1:13 nomain\n"),
    ("proc main(a) { }", "refused type 1:17 nomain\n"),
    (
        "proc main() requires (emp) { }",
        "refused type 1:31 nomain\n",
    ),
    ("proc main() ensures (emp) { }", "accepted 1\n"),
    ("inv main() of v { emp }", "refused type 1:24 nomain\n"),
    (
        "proc main(a) { } proc main() { }",
        "refused type 1:23 twice\n",
    ),
    (
        "proc main() { print(a); print(b); }",
        "refused type 1:21 unknown\n",
    ),
    (
        "proc main() { call f(1); } proc f() { print(x); }",
        "refused type 1:20 arity\n",
    ),
    (
        "proc main() { let a = b; let a = 1; }",
        "refused type 1:23 unknown\n",
    ),
    ("proc main() { let a = alloc na; free(a); }", "accepted 1\n"),
    (
        "proc main() { let i = 0; while (i < 3) inv (i <= 3) { i = i + 1; } }",
        "accepted 1\n",
    ),
    (
        "proc main() { bank g; let n = fetch_add acq(1, 1) with { mint(g, 1); burn(h, 2); }; }",
        "refused type 1:75 unknown\n",
    ),
];

// The most of each, and one more: the front of a program, a piece with its number behind its first half, how often
// it stands, the back.
const LIMITS: [(&str, &str, &str, u32, &str, &str); 16] = [
    (
        "",
        "proc q",
        "() { }\n",
        4095,
        "proc main() { }",
        "accepted 4096\n",
    ),
    (
        "",
        "proc q",
        "() { }\n",
        4096,
        "proc main() { }",
        "refused type 4097:6 count\n",
    ),
    (
        "",
        "inv q",
        "() of v { emp }\n",
        4095,
        "inv last() of v { emp } proc main() { }",
        "accepted 1\n",
    ),
    (
        "",
        "inv q",
        "() of v { emp }\n",
        4096,
        "inv last() of v { emp } proc main() { }",
        "refused type 4097:5 count\n",
    ),
    (
        "proc f(",
        "p",
        ", ",
        15,
        "last) { } proc main() { }",
        "accepted 2\n",
    ),
    (
        "proc f(",
        "p",
        ", ",
        16,
        "last) { } proc main() { }",
        "refused type 1:78 count\n",
    ),
    (
        "inv f(",
        "p",
        ", ",
        15,
        "last) of v { emp } proc main() { }",
        "accepted 1\n",
    ),
    (
        "inv f(",
        "p",
        ", ",
        16,
        "last) of v { emp } proc main() { }",
        "refused type 1:77 count\n",
    ),
    (
        "proc main() { ",
        "let v",
        " = 0; ",
        255,
        "let last = 0; }",
        "accepted 1\n",
    ),
    (
        "proc main() { ",
        "let v",
        " = 0; ",
        256,
        "let last = 0; }",
        "refused type 1:3493 count\n",
    ),
    (
        "inv f(p) of v { ",
        "p |-> ?x",
        " &*& ",
        253,
        "p |-> ?last } proc main() { }",
        "accepted 1\n",
    ),
    (
        "inv f(p) of v { ",
        "p |-> ?x",
        " &*& ",
        254,
        "p |-> ?last } proc main() { }",
        "refused type 1:3978 count\n",
    ),
    (
        "inv i() of v { emp } proc f(x) requires (Acq(x, i(), 0, {",
        "",
        "+ 0, ",
        15,
        "777})) { } proc main() { }",
        "accepted 2\n",
    ),
    (
        "inv i() of v { emp } proc f(x) requires (Acq(x, i(), 0, {",
        "",
        "+ 0, ",
        16,
        "777})) { } proc main() { }",
        "refused type 1:160 count\n",
    ),
    (
        "inv i() of v ",
        "{ v == ",
        " } ",
        7,
        "{ 777 == v } proc main() { }",
        "accepted 1\n",
    ),
    (
        "inv i() of v ",
        "{ v == ",
        " } ",
        8,
        "{ 777 == v } proc main() { }",
        "refused type 1:102 parts\n",
    ),
];

// A piece a number of times, each time with its number behind its first half, between a front and a back.
pub fn repeated(
    alloc: Global,
    front: &str,
    piece: (&str, &str),
    count: u32,
    back: &str,
) -> Result<String, AllocError> {
    let mut text = String::new(alloc);
    text.push_str(front)?;
    for number in 0..count {
        let (before, after) = piece;
        text.push_str(format!(in alloc; "{before}{number}{after}")?.as_str())?;
    }
    text.push_str(back)?;
    Ok(text)
}

#[test]
fn uses_and_modalities(rt: HostRuntime) {
    for (text, said) in USES {
        is_answered(&rt, rt.alloc(), text, said);
    }
}

#[test]
fn counts_and_the_first_fault(rt: HostRuntime) {
    for (text, said) in COUNTS {
        is_answered(&rt, rt.alloc(), text, said);
    }
}

#[test]
fn limits(rt: HostRuntime) -> Result<(), AllocError> {
    for (front, before, after, count, back, said) in LIMITS {
        let text = repeated(rt.alloc(), front, (before, after), count, back)?;
        is_answered(&rt, rt.alloc(), text.as_str(), said);
    }
    Ok(())
}
