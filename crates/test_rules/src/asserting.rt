//! What assertions give and take: a `requires` produced, and an `ensures` consumed behind it.

use crate::reading::program;
use crate::starting::{failing, no_program, produced};
use crate::writing::branches_text;
use fsl_asrt::{Bound, consume};
use fsl_base::{List, Text};
use fsl_core::{Asrt, Mood, Proc, Rung};
use std::alloc::{AllocError, Global};
use std::process::Abort;
use std::test::Fail;

/// A `requires` over two unknown numbers, and the branches on which it is produced.
const PRODUCED: &[&str] = &[
    "emp => emp",
    "a == b => a == b",
    "a != b => a < b | a > b",
    "a >= b => a >= b",
    "a <= b &*& b <= a => a == b",
    "a <= b &*& a != b => a < b",
    "a == b &*& a < b => absurd",
    "a * b == 0 => fails Term",
    "16777216 * a != 0 - a => fails Term | fails Term",
    "7 |->[3] 9 => 7 |->[3] 9",
    "a |-> b => a |-> b",
    "7 |->[b - a] _ &*& a + 1 < b => 7 |->[-a + b] _ &*& a < b",
    "7 |->[3] ?c => 7 |->[3] c",
    "7 |->[3] ?c &*& c < b => 7 |->[3] c &*& b > c",
    "b == 2 &*& 7 |->[3] a * b => 7 |->[3] 2 * a",
    "7 |->[3] ?c &*& 8 |->[3] ?d &*& c == d => 7 |->[3] c &*& 8 |->[3] d &*& c == d",
    "7 |->[3] 9 &*& 7 |->[4] _ => 7 |->[7] 9",
    "7 |->[3] _ &*& 7 |->[4] 9 => 7 |->[7] 9",
    "7 |->[3] _ &*& 7 |->[4] _ => 7 |->[7] _",
    "7 |->[3] 9 &*& 7 |->[4] 9 => 7 |->[7] 9",
    "7 |->[3] 9 &*& 7 |->[4] 8 => absurd",
    "7 |->[3] a &*& 7 |->[4] b => 7 |->[7] a &*& a == b",
    "7 |->[3] ?c &*& 7 |->[4] b => 7 |->[7] c &*& b == c",
    "7 |->[a] _ &*& 7 |->[b] _ => 7 |->[a + b] _",
    "a |->[3] 9 &*& b |->[4] 8 => a |->[3] 9 &*& b |->[4] 8",
    "a == b &*& a |->[3] 9 &*& b |->[4] _ => a |->[7] 9 &*& a == b",
    "a |->[3] 9 &*& b |->[4] 8 &*& a == b => a |->[3] 9 &*& b |->[4] 8 &*& a == b",
    "a |->[3] _ &*& b |->[4] _ &*& a == b &*& a |->[1] _ => a |->[4] _ &*& b |->[4] _ &*& a == b",
    "7 |->[9223372036854775807] 9 &*& 7 |->[1] _ => 7 |-> 9",
    "7 |-> 9 &*& 7 |->[1] _ => absurd",
    "7 |->[9223372036854775808 + 1] _ => absurd",
    "7 |->[0] _ => absurd",
    "a == 0 &*& 7 |->[a] _ => absurd",
    "7 |->[a] _ &*& a <= b => 7 |->[a] _ &*& a <= b",
    "7 |->[a] _ &*& a <= 0 => absurd",
    "7 |->[16777216 * a] _ &*& 7 |->[a] _ => fails Term",
    "if (true) { 7 |->[3] 9 } else { emp } => 7 |->[3] 9",
    "if (false) { 7 |->[3] 9 } else { emp } => emp",
    "if (a < b) { 7 |->[3] 9 } else { emp } => 7 |->[3] 9 &*& a < b | a >= b",
    "if (a == b) { 7 |->[3] 9 } else { emp } => 7 |->[3] 9 &*& a == b | a < b | a > b",
    "if (a != b) { 7 |->[3] 9 } else { emp } => 7 |->[3] 9 &*& a < b | 7 |->[3] 9 &*& a > b | a == b",
    "a <= b &*& if (a == b) { 7 |->[3] 9 } else { emp } => 7 |->[3] 9 &*& a == b | a < b",
    "if (a < b) { 0 == 1 } else { emp } => a >= b",
    "if (a < b) { 7 |->[3] 9 } else { emp } &*& if (a == b) { 8 |->[3] _ } else { emp } => 7 |->[3] 9 &*& a < b | 8 |->[3] _ &*& a == b | a > b",
    "if (a < b) { 7 |->[3] 9 } else { 8 |->[3] _ } &*& 7 |->[4] _ => 7 |->[7] 9 &*& a < b | 8 |->[3] _ &*& 7 |->[4] _ &*& a >= b",
    "if (a < b) { a * b == 0 } else { emp } => fails Term | a >= b",
    "if (a < b) { emp } else { a * b |-> _ } &*& 7 |->[3] _ => 7 |->[3] _ &*& a < b | fails Term",
    "if (a * b == 0) { emp } else { emp } => fails Term",
];

/// A `requires`, an `ensures`, and the branches on which the second is consumed behind the first.
const CONSUMED: &[&str] = &[
    "a < b => a != b => a < b",
    "a <= b => a != b => fails Post",
    "a != b => a < b => a < b | fails Post",
    "emp => a * b == 0 => fails Term",
    "7 |->[7] 9 => 7 |->[3] _ => 7 |->[4] 9",
    "7 |->[7] 9 => 7 |->[3] 9 => 7 |->[4] 9",
    "7 |->[7] 9 => 7 |->[3] ?c &*& c == 9 => 7 |->[4] 9",
    "7 |->[7] 9 => 7 |->[3] ?c &*& c == 8 => fails Post",
    "7 |->[7] 9 => 7 |->[7] _ => emp",
    "7 |->[7] 9 => 7 |->[3] _ &*& 7 |->[4] 9 => emp",
    "7 |-> _ => 7 |->[1] _ => 7 |->[9223372036854775807] _",
    "7 |-> ?c => 7 |->[1] ?d &*& d == c => 7 |->[9223372036854775807] c &*& c == c",
    "a == b &*& a |-> 9 => b |-> 9 => a == b",
    "emp => 7 |->[1] _ => fails Points",
    "a |-> 9 => b |-> 9 => fails Points",
    "7 |->[7] _ => 7 |->[7] _ &*& 7 |->[1] _ => fails Points",
    "7 |->[7] _ => 7 |->[8] _ => fails Share",
    "emp => 7 |->[0] _ => fails Share",
    "7 |->[7] _ => 7 |->[1] 9 => fails Uninit",
    "7 |->[7] _ => 7 |->[1] ?c => fails Uninit",
    "7 |->[7] 9 => 7 |->[1] 8 => fails Value",
    "7 |->[7] ?c => 7 |->[1] 8 => fails Value",
    "7 |->[7] 9 => 7 |->[8] 8 => fails Share",
    "emp => 7 |->[0] a * b => fails Term",
    "b >= 1 &*& a >= b &*& 7 |->[a] 9 => 7 |->[b] _ => a == b | 7 |->[a + -b] 9 &*& a > b",
    "b >= 1 &*& a > b &*& 7 |->[a] 9 => 7 |->[b] _ => 7 |->[a + -b] 9 &*& a > b",
    "b >= 1 &*& a == b &*& 7 |->[a] 9 => 7 |->[b] _ => a == b",
    "b >= 1 &*& 7 |->[a] 9 => 7 |->[b] _ => fails Share",
    "b >= 1 &*& a <= b &*& 7 |->[a] 9 => 7 |->[b] _ => fails Share",
    "a >= b &*& 7 |->[a] 9 => 7 |->[b] _ => fails Share",
    "a |->[3] _ &*& b |->[5] 9 &*& a == b => a |->[2] _ => a |->[1] _ &*& b |->[5] 9 &*& a == b",
    "a |->[3] _ &*& b |->[5] 9 &*& a == b => a |->[3] _ => b |->[5] 9 &*& a == b",
    "a |->[3] _ &*& b |->[5] 9 &*& a == b => a |->[4] 9 => a |->[3] _ &*& b |->[1] 9 &*& a == b",
    "a |->[3] _ &*& b |->[5] 9 &*& a == b => a |->[2] 9 => fails Uninit",
    "a |->[3] _ &*& b |->[5] 9 &*& a == b => a |->[6] 9 => fails Share",
    "7 |->[3] 9 => if (a < b) { 7 |->[3] 9 } else { emp } => a < b | 7 |->[3] 9 &*& a >= b",
    "7 |->[3] 9 => if (a == b) { 7 |->[2] 9 } else { 7 |->[1] 8 } => 7 |->[1] 9 &*& a == b | fails Value | fails Value",
    "a < b &*& 7 |->[3] 9 => if (a == b) { 7 |->[9] _ } else { 7 |->[1] _ } => 7 |->[2] 9 &*& a < b",
    "7 |->[3] 9 => if (a < b) { 0 == 1 } else { emp } &*& 7 |->[3] _ => fails Post | a >= b",
    "7 |->[3] 9 => 7 |->[3] _ &*& if (a < b) { emp } else { 0 == 1 } => a < b | fails Post",
    "if (a < b) { 7 |->[3] 9 } else { emp } => if (a < b) { 7 |->[3] 9 } else { emp } => a < b | a >= b",
];

/// Where an assertion is consumed, and the answer for a fact that doesn't hold.
const MOODS: [(Mood, &str); 4] = [
    (Mood::Pre, "fails Pre"),
    (Mood::Post, "fails Post"),
    (Mood::Loop, "fails Loop"),
    (Mood::Cond, "fails Cond"),
];

/// The rungs at which a cell is produced and consumed.
const RUNGS: [(Rung, Rung, &str); 6] = [
    (Rung::Up, Rung::Up, "emp"),
    (Rung::Down, Rung::Down, "emp"),
    (Rung::Msg, Rung::Msg, "emp"),
    (Rung::Up, Rung::Plain, "fails Points"),
    (Rung::Plain, Rung::Up, "fails Points"),
    (Rung::Down, Rung::Msg, "fails Points"),
];

/// An assertion consumed on each branch.
fn consumed(
    alloc: Global,
    branches: List<Bound>,
    a: &Asrt,
    rung: Rung,
    mood: Mood,
) -> Result<List<Bound>, AllocError> {
    let mut out = List::new(alloc);
    for branch in branches.into_vec() {
        let more = match branch {
            Bound::Goes { state, env } => consume(alloc, state, a, env, rung, mood)?,
            Bound::Fails { kind } => failing(alloc, kind)?,
        };
        out.append(more)?;
    }
    Ok(out)
}

/// How a procedure's contract is gone through.
#[derive(Clone, Copy)]
struct Way {
    from: Rung,
    to: Rung,
    mood: Mood,
}

/// As a procedure itself does.
const OWN: Way = Way {
    from: Rung::Plain,
    to: Rung::Plain,
    mood: Mood::Post,
};

/// The branches on which the `requires` of a procedure is produced and its `ensures` consumed.
fn passed(alloc: Global, proc: &Proc, way: Way) -> Result<Text, AllocError> {
    let branches = produced(alloc, proc, way.from)?;
    let branches = consumed(alloc, branches, &proc.post, way.to, way.mood)?;
    branches_text(alloc, &branches)
}

/// The branches on which one assertion is produced and another one consumed.
fn answer(alloc: Global, pre: &str, post: &str, way: Way) -> Result<Text, AllocError> {
    let text = format!(in alloc;
        "proc f(a, b) requires ({pre}) ensures ({post}) {{ }} proc main() {{ }}"
    )?;
    match program(alloc, text.as_str()) {
        Some(p) => match p.procs().first() {
            Some(proc) => passed(alloc, proc, way),
            None => no_program(alloc),
        },
        None => no_program(alloc),
    }
}

/// Whether each `requires` has the branches that its row says.
fn are_produced(rt: &impl Abort, alloc: Global, rows: &[&str]) -> Result<(), Fail> {
    for row in rows {
        let (pre, wanted) = row.split_once(" => ").ok_or("no row")?;
        let got = answer(alloc, pre, "emp", OWN)?;
        assert_eq!(rt; got.as_str(), wanted, "{row}");
    }
    Ok(())
}

/// Whether each `ensures` has the branches that its row says.
fn are_consumed(rt: &impl Abort, alloc: Global, rows: &[&str]) -> Result<(), Fail> {
    for row in rows {
        let (pre, rest) = row.split_once(" => ").ok_or("no row")?;
        let (post, wanted) = rest.split_once(" => ").ok_or("no row")?;
        let got = answer(alloc, pre, post, OWN)?;
        assert_eq!(rt; got.as_str(), wanted, "{row}");
    }
    Ok(())
}

#[test]
fn an_assertion_is_produced(rt: HostRuntime) -> Result<(), Fail> {
    are_produced(&rt, rt.alloc(), PRODUCED)
}

#[test]
fn an_assertion_is_consumed(rt: HostRuntime) -> Result<(), Fail> {
    are_consumed(&rt, rt.alloc(), CONSUMED)
}

#[test]
fn an_assertion_fails_by_its_mood_and_rung(rt: HostRuntime) -> Result<(), Fail> {
    for (mood, wanted) in MOODS {
        let got = answer(rt.alloc(), "emp", "0 == 1", Way { mood, ..OWN })?;
        assert_eq!(rt; got.as_str(), wanted, "{mood:?}");
    }
    for (from, to, wanted) in RUNGS {
        let got = answer(
            rt.alloc(),
            "7 |->[3] 9",
            "7 |->[3] 9",
            Way { from, to, ..OWN },
        )?;
        assert_eq!(rt; got.as_str(), wanted, "{from:?} {to:?}");
    }
    Ok(())
}
