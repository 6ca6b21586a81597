//! `Program::new` on pieces of two programs: one comes of them exactly where uses still fit declarations.
use crate::changing::{Change, invariants, is_program, procedures};
use crate::reading::program;
use crate::starting::no_program;
use crate::writing::put;
use fsl_base::{List, Text};
use fsl_core::{Mode, Program};
use std::alloc::{AllocError, Global};
use std::process::Abort;
use std::test::Fail;

/// Other invariants for programs with `inv I(x) of v { emp } { emp }`, by their names.
const INVARIANTS: [(&str, &str); 4] = [
    ("none", ""),
    ("one", "inv I(x) of v { emp }"),
    ("two", "inv I(x) of v { emp } { emp }"),
    ("pair", "inv I(x, y) of v { emp } { emp }"),
];

/// Procedures, and the invariants that they go with.
const USES: &[&str] = &[
    "proc f(p) { } => none one two pair",
    "proc f(p) requires (Rel(p, I(1))) { } => one two",
    "proc f(p) requires (RmwAcq(p, I(1))) { } => one two",
    "proc f(p) requires (Acq(p, I(1), 0, {})) { } => one two",
    "proc f(p) requires (Acq(p, I(1), 1, {})) { } => two",
    "proc f(p) ensures (Rel(p, I(1))) { } => one two",
    "proc f(p) requires (emp &*& Rel(p, I(1))) { } => one two",
    "proc f(p) requires (if (p == 1) { Acq(p, I(1), 1, {}) } else { emp }) { } => two",
    "proc f(p) requires (if (p == 1) { emp } else { Rel(p, I(1)) }) { } => one two",
    "proc f(p) requires (up(emp &*& Rel(p, I(1)))) { } => one two",
    "proc f(p) { while (p == 1) inv (Acq(p, I(1), 1, {})) { } } => two",
    "proc f(p) { fence rel (Rel(p, I(1))); } => one two",
    "proc f(p) { let q = alloc acq I(p); } => one two",
    "proc f(p) { let q = alloc rmw I(p); } => one two",
    "proc f(p) { if (p == 1) { let q = alloc rmw I(p); } } => one two",
    "proc f(p) { while (p == 1) { let q = alloc acq I(p); } } => one two",
];

/// A program whose first procedure stands in the place of another's, and whether that is a program.
const CALLS: &[&str] = &[
    "proc f() { print(1); } proc main() { } => proc f() { } proc main() { call f(); } => Kept",
    "proc f(x) { } proc main() { } => proc f() { } proc main() { call f(); } => none",
    "proc f() { } proc main() { } => proc f(x) { } proc main() { call f(1); } => none",
    "proc f(x) { } proc main() { } => proc f() { } proc main() { let y = call f(); } => none",
    "proc f(x) { } proc main() { } => proc f() { } proc main() { par { f(); f(); } } => none",
    "proc f(x) { } proc main() { } => proc f() { } proc main() { if (1 == 1) { call f(); } } => none",
    "proc f(x) { } proc main() { } => proc f() { } proc main() { if (1 == 1) { } else { call f(); } } => none",
    "proc f(x) { } proc main() { } => proc f() { } proc main() { while (1 == 1) { call f(); } } => none",
    "proc main() { call f(); } proc f() { } => proc main() { } proc g() { } => Kept",
    "proc main() { call f(); } proc f() { } => proc main() { } proc g(x) { } => none",
    "proc main() { call f(); } proc f() { } => proc main() { } => none",
    "proc main() { par { f(); f(); } } proc f() { } => proc main() { } => none",
    "proc f() { } proc main() { } => proc main() { } => none",
    "proc f() requires (up(Init(1))) { } proc main() { } => proc f() { } proc main() { call f(); } => Kept",
    "proc f() requires (up(Init(1))) { } proc main() { } => proc f() { } proc main() { par { f(); f(); } } => none",
    "proc f() requires (emp &*& down(Init(1))) { } proc main() { } => proc f() { } proc main() { par { f(); f(); } } => none",
    "proc f() ensures (down(Init(1))) { } proc main() { } => proc f() { } proc main() { par { f(); f(); } } => none",
    "proc f() ensures (down(Init(1))) { } proc main() { } => proc f() { } proc main() { call f(); } => Kept",
    "proc f() ensures (Init(1)) { } proc main() { } => proc f() { } proc main() { par { f(); f(); } } => Kept",
];

/// Rows that stand in one text, and the changes that are made of the procedure there.
struct Frame {
    front: &'static str,
    back: &'static str,
    changes: &'static [Change],
    rows: &'static [&'static str],
}

/// What is changed, and with which changes it gives a program.
const FRAMES: [Frame; 4] = [
    // a procedure
    Frame {
        front: "",
        back: "",
        changes: &[Change::Main],
        rows: &[
            "proc f() { print(1); } => Main",
            "proc f() ensures (Init(1)) { } => Main",
            "proc f(x) { } => none",
            "proc f() requires (Init(1)) { } => none",
            "proc f() requires (0 == 0) { } => none",
        ],
    },
    // an assertion
    Frame {
        front: "inv I(x) of v { emp } proc f() requires (",
        back: ") { }",
        changes: &[
            Change::Kept,
            Change::Part,
            Change::Fence,
            Change::Loop,
            Change::Up,
            Change::Down,
        ],
        rows: &[
            "Init(1) => Kept Part Fence Loop Up Down",
            "Acq(1, I(2), 0, {}) => Kept Part Fence Loop Up Down",
            "up(Init(1)) => Kept Loop",
            "down(Init(1)) => Kept Loop",
            "emp &*& up(Init(1)) => Kept Loop",
            "if (1 == 2) { down(emp) } else { emp } => Kept Loop",
            "if (1 == 2) { emp } else { up(emp) } => Kept Loop",
        ],
    },
    // a statement
    Frame {
        front: "proc f() { ",
        back: " }",
        changes: &[
            Change::Mode(Mode::Na),
            Change::Mode(Mode::Rlx),
            Change::Mode(Mode::Acq),
            Change::Mode(Mode::Rel),
            Change::Mode(Mode::AcqRel),
        ],
        rows: &[
            "let x = load rlx(1); => Na Rlx Acq",
            "store rlx(1, 2); => Na Rlx Rel",
            "let x = cas rlx rlx(1, 2, 3); => Rlx Acq Rel AcqRel",
            "let x = fetch_add rlx(1, 2); => Rlx Acq Rel AcqRel",
            "let x = exchange rlx(1, 2); => Rlx Acq Rel AcqRel",
            "fence acq; => Acq Rel AcqRel",
        ],
    },
    Frame {
        front: "proc f() { ",
        back: " }",
        changes: &[
            Change::Miss(Mode::Na),
            Change::Miss(Mode::Rlx),
            Change::Miss(Mode::Acq),
            Change::Miss(Mode::Rel),
            Change::Miss(Mode::AcqRel),
        ],
        rows: &["let x = cas rlx rlx(1, 2, 3); => Rlx Acq"],
    },
];

/// The name of a change.
fn name(alloc: Global, change: Change) -> Result<String, AllocError> {
    match change {
        Change::Mode(mode) => format!(in alloc; "{mode:?}"),
        Change::Miss(mode) => format!(in alloc; "{mode:?}"),
        _ => format!(in alloc; "{change:?}"),
    }
}

/// `none`, where no name came.
fn names_or_none(text: Text) -> Result<Text, AllocError> {
    let mut text = text;
    if text.as_str().is_empty() {
        text.push_str("none")?;
    }
    Ok(text)
}

/// The changes of a program's first procedure with which it stands in the place of another's first.
fn changes(
    alloc: Global,
    one: &Program,
    other: &Program,
    all: &[Change],
) -> Result<Text, AllocError> {
    let Some(proc) = one.procs().first() else {
        return no_program(alloc);
    };
    let mut text = Text::new(alloc);
    for change in all {
        if is_program(alloc, other, proc, *change)? {
            put(&mut text, " ", name(alloc, *change)?.as_str())?;
        }
    }
    names_or_none(text)
}

/// The same of two texts.
fn mixed(alloc: Global, one: &str, other: &str, all: &[Change]) -> Result<Text, AllocError> {
    match (program(alloc, one), program(alloc, other)) {
        (Some(one), Some(other)) => changes(alloc, &one, &other, all),
        _ => no_program(alloc),
    }
}

/// Whether the procedures of a program fit the invariants of a text.
fn fits(alloc: Global, p: &Program, invs: &str) -> Result<bool, AllocError> {
    let text = format!(in alloc; "{invs} proc main() {{ }}")?;
    let Some(other) = program(alloc, text.as_str()) else {
        return Ok(false);
    };
    let invs = invariants(alloc, &other)?;
    let procs = procedures(alloc, List::new(alloc), p, 0)?;
    Ok(Program::new(invs, procs).is_some())
}

/// The invariants that procedures go with.
fn fitting(alloc: Global, procs: &str) -> Result<Text, AllocError> {
    let text = format!(in alloc; "inv I(x) of v {{ emp }} {{ emp }} {procs} proc main() {{ }}")?;
    let Some(p) = program(alloc, text.as_str()) else {
        return no_program(alloc);
    };
    let mut text = Text::new(alloc);
    for (name, invs) in INVARIANTS {
        if fits(alloc, &p, invs)? {
            put(&mut text, " ", name)?;
        }
    }
    Ok(text)
}

/// The changes with which the procedure of a row gives a program.
fn framed(alloc: Global, frame: &Frame, row: &str) -> Result<Text, AllocError> {
    let (front, back) = (frame.front, frame.back);
    let text = format!(in alloc; "{front}{row}{back} proc main() {{ }}")?;
    mixed(alloc, text.as_str(), text.as_str(), frame.changes)
}

/// Whether the procedures of each row go with the invariants that it says.
fn are_used(rt: &impl Abort, alloc: Global, rows: &[&str]) -> Result<(), Fail> {
    for row in rows {
        let (procs, wanted) = row.split_once(" => ").ok_or("no row")?;
        let got = fitting(alloc, procs)?;
        assert_eq!(rt; got.as_str(), wanted, "{row}");
    }
    Ok(())
}

/// Whether the first program's procedure gives a program with the second's, as each row says.
fn are_called(rt: &impl Abort, alloc: Global, rows: &[&str]) -> Result<(), Fail> {
    for row in rows {
        let (one, rest) = row.split_once(" => ").ok_or("no row")?;
        let (other, wanted) = rest.split_once(" => ").ok_or("no row")?;
        let got = mixed(alloc, one, other, &[Change::Kept])?;
        assert_eq!(rt; got.as_str(), wanted, "{row}");
    }
    Ok(())
}

#[test]
fn uses_fit_invariants(rt: HostRuntime) -> Result<(), Fail> {
    are_used(&rt, rt.alloc(), USES)
}

#[test]
fn calls_fit_procedures(rt: HostRuntime) -> Result<(), Fail> {
    are_called(&rt, rt.alloc(), CALLS)
}

/// Whether each row of a frame gives programs with the changes that it says.
fn are_answered(rt: &impl Abort, alloc: Global, frame: &Frame) -> Result<(), Fail> {
    for row in frame.rows {
        let (case, wanted) = row.split_once(" => ").ok_or("no row")?;
        let got = framed(alloc, frame, case)?;
        assert_eq!(rt; got.as_str(), wanted, "{row}");
    }
    Ok(())
}

#[test]
fn a_changed_procedure_gives_a_program(rt: HostRuntime) -> Result<(), Fail> {
    for frame in &FRAMES {
        are_answered(&rt, rt.alloc(), frame)?;
    }
    Ok(())
}
