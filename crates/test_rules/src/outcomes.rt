//! Outcomes of procedures: how many paths there are, or the first failure with its place.
use crate::reading::program;
use crate::starting::{no_program, not_supported};
use fsl_base::Text;
use fsl_core::{Kind, Outcome, Program};
use fsl_flow::{is_supported, outcome};
use fsl_token::place;
use std::alloc::{AllocError, Global};
use std::process::Abort;
use std::test::Fail;

/// What stands behind `proc f(a, b)`, and the outcome of that procedure.
const OUTCOMES: &[&str] = &[
    "{\n} => derived 1",
    "{\nlet x = alloc na;\nstore na(x, 7);\nlet y = load na(x);\nassert (y == 7);\n} => derived 1",
    "{\nlet x = alloc na;\nlet y = load na(x);\n} => fails 3:1 Uninit",
    "{\nstore na(a, 1);\n} => fails 2:1 Points",
    "requires (a |->[4] _) {\nstore na(a, 1);\n} => fails 2:1 Share",
    "{\nassert (a < b);\n} => fails 2:1 Assert",
    "{\nprint(a * b);\n} => fails 2:1 Term",
    "{\nlet x = alloc na;\nassert (x >= 1);\nlet y = alloc na;\nassert (x != y);\n} => fails 5:1 Assert",
    "requires (a |->[4] _) ensures (a |->[5] _) {\n} => fails 2:1 Share",
    "requires (a |-> 1) ensures (a |-> 2) {\n} => fails 2:1 Value",
    "requires (a |-> ?c) ensures (a |-> c + 1) {\nlet x = load na(a);\nstore na(a, x + 1);\n} => derived 1",
    "ensures (result == 0) {\n} => derived 1",
    "ensures (result == 1) {\n} => fails 2:1 Post",
    "ensures (result == 1) {\nreturn 1;\n} => derived 1",
    "ensures (result == 1) {\nreturn;\n} => fails 2:1 Post",
    "ensures (a > b) {\nif (a > b) { return; }\nreturn 0;\n} => fails 3:1 Post",
    "requires (a * b == 0) {\n} => fails 1:1 Term",
    "requires (a < a) {\nassert (0 == 1);\n} => derived 0",
    "requires (a != b) {\nif (a < b) { }\n} => derived 2",
    "requires (a != b) {\nassert (a < b);\n} => fails 2:1 Assert",
    "{\nif (a < b) { }\n} => derived 2",
    "{\nif (a == b) { }\n} => derived 3",
    "requires (a <= b) {\nif (a == b) { }\n} => derived 2",
    "{\nif (a < b) { }\nif (a >= b) { }\n} => derived 2",
    "{\nif (a < b) { }\nif (a == b) { }\n} => derived 3",
    "{\nif (a < b) { return; }\nassert (a >= b);\n} => derived 2",
    "{\nif (a < b) { return; }\nif (b < 0) { }\n} => derived 3",
    "{\nif (a * b == 0) { }\n} => fails 2:1 Term",
    "{\nif (a == b) {\nassert (0 == 1);\n} else {\nstore na(a, 1);\n}\n} => fails 3:1 Assert",
    "{\nif (a == b) { } else { if (a < b) {\nstore na(a, 1);\n} else {\nassert (0 == 1);\n} }\n} => fails 3:1 Points",
    "{\nif (a != b) { if (a < b) { } else {\nstore na(a, 1);\n} } else {\nassert (0 == 1);\n}\n} => fails 3:1 Points",
    "{\nwhile (true) { }\n} => derived 1",
    "{\nwhile (false) { }\n} => derived 1",
    "{\nwhile (a < b) { }\n} => derived 2",
    "{\nwhile (a == b) { }\n} => derived 3",
    "{\nwhile (a < b) { while (a < b) { } }\n} => derived 2",
    "{\nwhile (a < 5) { while (b < 5) { } }\n} => derived 3",
    "{\nlet i = 0;\nwhile (i < a) inv (i >= 0) { i = i + 1; }\nassert (i >= a);\n} => derived 2",
    "{\nlet i = 0 - 1;\nwhile (i < a) inv (i >= 0) {\nassert (0 == 1);\n}\n} => fails 3:1 Loop",
    "{\nlet i = 0;\nwhile (i < a) inv (i >= 0) {\nassert (i == 0);\ni = i - 9;\n}\n} => fails 4:1 Assert",
    "{\nlet i = 0;\nwhile (i < a) inv (i >= 0) {\ni = i - 9;\n}\nassert (0 == 1);\n} => fails 3:1 Loop",
    "{\nwhile (a < b) {\nassert (a < b);\n}\nassert (a < b);\n} => fails 5:1 Assert",
    "requires (a |-> 7) ensures (a |-> 7) {\nwhile (b < 0) { }\n} => derived 2",
    "requires (a |-> 7) {\nwhile (b < 0) {\nlet x = load na(a);\n}\n} => fails 3:1 Points",
    "requires (a |-> 7) {\nwhile (b < 0) inv (a |-> ?c) {\nlet x = load na(a);\n}\n} => derived 2",
    "requires (a |-> 7) ensures (a |-> 7) {\nwhile (b < 0) inv (a |-> ?c) { }\n} => fails 3:1 Value",
    "requires (a |-> 7) {\nwhile (b < 0) inv (a |->[4] 7) { }\nstore na(a, 8);\n} => derived 2",
    "requires (a |-> 7) {\nwhile (b < 0) inv (a |-> _) { }\nlet x = load na(a);\n} => fails 3:1 Uninit",
    "requires (a |-> 7) {\nwhile (b < 0) inv (a |->[4] 7) {\nstore na(a, 8);\n}\n} => fails 3:1 Share",
    "{\nlet i = 5;\nwhile (i < a) inv (i == 5) { i = 5; }\nassert (i == 5);\n} => derived 2",
    "{\nlet i = 5;\nwhile (i < a) { i = 5; }\nassert (i == 5);\n} => fails 4:1 Assert",
    "{\nlet i = 5;\nwhile (a < b) { let j = i; }\nassert (i == 5);\n} => derived 2",
    "{\nlet i = 5;\nwhile (a < b) { if (a == 0) { i = 6; } }\nassert (i == 5);\n} => fails 4:1 Assert",
    "{\ncall g(a);\n}\nproc g(x) { } => derived 1",
    "{\ncall g(a);\n}\nproc g(x) requires (x > 0) { } => fails 2:1 Pre",
    "{\ncall g(a * b);\n}\nproc g(x) requires (x > 0) { } => fails 2:1 Term",
    "requires (a |-> 7) {\nlet x = call g(a);\nassert (x == 7);\n}\nproc g(p) requires (p |-> ?v) ensures (result == v) { } => derived 1",
    "requires (a |-> 7) {\ncall g(a);\nstore na(a, 1);\n}\nproc g(p) requires (p |->[1] _) { } => fails 3:1 Share",
    "{\nlet x = call g();\nif (x == 0) { }\n}\nproc g() { } => derived 3",
    "{\ncall g(a);\n}\nproc g(x) ensures (if (x == 0) { emp } else { emp }) { } => derived 3",
    "{\ncall g(a);\nassert (0 == 1);\n}\nproc g(x) ensures (x < x) { } => derived 0",
    "ensures (a < b) {\ncall f(b, a);\ncall f(a, b);\n} => derived 0",
    "requires (a |-> 7) {\npar { g(a); g(a); }\nlet x = load na(a);\nstore na(a, x + 1);\n}\nproc g(p) requires (p |->[1] ?v) ensures (p |->[1] v) { } => derived 1",
    "requires (a |-> 7) {\npar { g(a); g(b); }\n}\nproc g(p) requires (p |->[1] _) { } => fails 2:1 Points",
    "requires (a |-> 7) {\npar { g(a); g(a * b); }\n}\nproc g(p) requires (p |-> 8) { } => fails 2:1 Term",
    "{\npar { g(a); g(b); }\n}\nproc g(x) ensures (if (x == 0) { emp } else { emp }) { } => derived 9",
];

/// A failure by its place in a text, which is taken to be short.
fn failure(alloc: Global, text: &str, at: u32, kind: Kind) -> Result<Text, AllocError> {
    let bytes = text.as_bytes();
    if bytes.len() > 4096 {
        return no_program(alloc);
    }
    let at = place(bytes, at);
    let (line, col) = (at.line, at.col);
    Ok(Text::from_string(format!(in alloc; "fails {line}:{col} {kind:?}")?))
}

/// The outcome of the first procedure of a program that is this text.
fn judged(alloc: Global, text: &str, p: &Program) -> Result<Text, AllocError> {
    if !is_supported(p) || p.procs().is_empty() {
        return not_supported(alloc);
    }
    match outcome(alloc, p, 0)? {
        Outcome::Derived { paths } => Ok(Text::from_string(format!(in alloc; "derived {paths}")?)),
        Outcome::Fails { span, kind, .. } => failure(alloc, text, span.from, kind),
    }
}

/// The outcome of a procedure behind invariants.
fn answer(alloc: Global, invs: &str, procedure: &str) -> Result<Text, AllocError> {
    let text = format!(in alloc; "{invs}proc f(a, b) {procedure}\nproc main() {{ }}")?;
    match program(alloc, text.as_str()) {
        Some(p) => judged(alloc, text.as_str(), &p),
        None => no_program(alloc),
    }
}

/// Whether each procedure has the outcome that its row says, behind invariants on the first line.
pub fn are_judged_under(
    rt: &impl Abort,
    alloc: Global,
    invs: &str,
    rows: &[&str],
) -> Result<(), Fail> {
    for row in rows {
        let (procedure, wanted) = row.split_once(" => ").ok_or("no row")?;
        let got = answer(alloc, invs, procedure)?;
        assert_eq!(rt; got.as_str(), wanted, "{row}");
    }
    Ok(())
}

#[test]
fn a_procedure_has_an_outcome(rt: HostRuntime) -> Result<(), Fail> {
    are_judged_under(&rt, rt.alloc(), "", OUTCOMES)
}
