//! What conditions and expressions come to, where something is known of two numbers a and b.
use crate::reading::program;
use crate::starting::{no_program, only};
use crate::writing::{failure, put, relation, term_text};
use fsl_asrt::{Bound, Branch, Decided, assume_cond, decide_cond, demand_cond, read};
use fsl_base::{List, Text};
use fsl_chunk::{Env, State, Went};
use fsl_core::{Act, Cond, Expr, Kind, Proc};
use std::alloc::{AllocError, Global};
use std::process::Abort;
use std::test::Fail;

/// What is asked of a condition, or of an expression.
#[derive(Clone, Copy, Debug)]
enum How {
    Decided,
    Assumed,
    /// Assumed not to hold.
    Denied,
    Demanded,
    Term,
}

/// What is known of a and b, a condition, and its branches: the answer, and how a and b compare there.
const DECIDED: &[&str] = &[
    "emp => a == b => yes == | no < | no >",
    "emp => a != b => yes < | yes > | no ==",
    "emp => a < b => yes < | no >=",
    "emp => a <= b => yes <= | no >",
    "emp => a > b => yes > | no <=",
    "emp => a >= b => yes >= | no <",
    "a == b => a == b => yes ==",
    "a == b => a != b => no ==",
    "a == b => a < b => no ==",
    "a == b => a <= b => yes ==",
    "a == b => a > b => no ==",
    "a == b => a >= b => yes ==",
    "a < b => a == b => no <",
    "a < b => a != b => yes <",
    "a < b => a < b => yes <",
    "a < b => a <= b => yes <",
    "a < b => a > b => no <",
    "a < b => a >= b => no <",
    "a <= b => a == b => yes == | no <",
    "a <= b => a != b => yes < | no ==",
    "a <= b => a < b => yes < | no ==",
    "a <= b => a <= b => yes <=",
    "a <= b => a > b => no <=",
    "a <= b => a >= b => yes == | no <",
    "a > b => a == b => no >",
    "a > b => a != b => yes >",
    "a > b => a < b => no >",
    "a > b => a <= b => no >",
    "a > b => a > b => yes >",
    "a > b => a >= b => yes >",
    "a >= b => a == b => yes == | no >",
    "a >= b => a != b => yes > | no ==",
    "a >= b => a < b => no >=",
    "a >= b => a <= b => yes == | no >",
    "a >= b => a > b => yes > | no ==",
    "a >= b => a >= b => yes >=",
    "a < b => true => yes <",
    "a < b => false => no <",
    "emp => 0 == a * b => fails Term",
    "emp => a * b < 0 => fails Term",
    "emp => 16777216 * a == 0 - a => fails Term | fails Term | fails Term",
];

/// What is known, a condition, and how a and b compare on the branches where it holds.
const ASSUMED: &[&str] = &[
    "emp => a == b => ==",
    "emp => a != b => < | >",
    "emp => a < b => <",
    "a <= b => a >= b => ==",
    "a == b => a == b => ==",
    "a < b => a == b => absurd",
    "a < b => false => absurd",
    "emp => a * b < 0 => fails Term",
    "emp => 16777216 * a == 0 - a => fails Term",
];

/// What is known, a condition, and how a and b compare on the branches where it doesn't hold.
const DENIED: &[&str] = &[
    "emp => a == b => < | >",
    "emp => a != b => ==",
    "emp => a < b => >=",
    "emp => a <= b => >",
    "emp => a > b => <=",
    "emp => a >= b => <",
    "a <= b => a == b => <",
    "a < b => a <= b => absurd",
    "a < b => true => absurd",
    "a < b => false => <",
    "emp => 16777216 * a == 0 - a => fails Term | fails Term",
];

/// What is known, a condition, and what becomes of a demand of it.
const DEMANDED: &[&str] = &[
    "a == b => a == b => ==",
    "a < b => a != b => <",
    "a <= b => a <= b => <=",
    "a > b => a >= b => >",
    "a < b => true => <",
    "a < b => false => fails Assert",
    "emp => a <= b => fails Assert",
    "a == b => a != b => fails Assert",
    "a <= b => a < b => fails Assert",
    "a <= b => a > b => fails Assert",
    "emp => a * b == 0 => fails Term",
    "emp => 16777216 * a == 0 - a => fails Assert",
];

/// What is known, an expression, and its term.
const TERMS: &[&str] = &[
    "emp => 5 => 5",
    "emp => -9223372036854775808 => -9223372036854775808",
    "emp => b => b",
    "emp => -(a - 4) => -a + 4",
    "emp => 7 - b => -b + 7",
    "emp => a - (b - 4) + 1 + b => a + 5",
    "emp => 3 * a => 3 * a",
    "emp => a * 3 => 3 * a",
    "emp => 2 * (a - 1) * 3 => 6 * a + -6",
    "emp => a * b => no term",
    "emp => (a - b) * b => no term",
    "a == b => (a - b) * b => 0",
    "a == 2 => a * b => 2 * b",
    "b == 2 => a * b => 2 * a",
    "a == 2 &*& b == 3 => a * b => 2 * b",
    "2 <= a &*& a <= 2 => a * b => no term",
    "emp => 16777216 * a => 16777216 * a",
    "emp => 16777217 * a => no term",
    "emp => 16777216 * a + a - a => no term",
    "emp => 16777216 * a - a + a => 16777216 * a",
    "emp => 9223372036854775808 * 134217728 => 1237940039285380274899124224",
    "emp => 9223372036854775808 * 134217728 + 1 => no term",
];

/// All of these, by what is asked.
const TABLES: [(How, &[&str]); 5] = [
    (How::Decided, DECIDED),
    (How::Assumed, ASSUMED),
    (How::Denied, DENIED),
    (How::Demanded, DEMANDED),
    (How::Term, TERMS),
];

/// How a and b compare in a state.
fn compared(state: &State, env: &Env) -> &'static str {
    match (env.get(0), env.get(1)) {
        (Some(a), Some(b)) => relation(state, a, b),
        _ => "not there",
    }
}

/// A branch of a decision.
fn decision(alloc: Global, branch: &Decided, env: &Env) -> Result<Text, AllocError> {
    match branch {
        Decided::Goes { state, holds } => {
            let relation = compared(state, env);
            let answer = if *holds { "yes" } else { "no" };
            Ok(Text::from_string(format!(in alloc; "{answer} {relation}")?))
        }
        Decided::Fails { kind } => failure(alloc, *kind),
    }
}

/// The branches of a decision in order.
fn decisions(alloc: Global, branches: &List<Decided>, env: &Env) -> Result<Text, AllocError> {
    let mut text = Text::new(alloc);
    for branch in branches.as_slice() {
        put(&mut text, " | ", decision(alloc, branch, env)?.as_str())?;
    }
    Ok(text)
}

/// A branch of an assumption.
fn assumption(alloc: Global, branch: &Branch, env: &Env) -> Result<Text, AllocError> {
    match branch {
        Branch::Goes { state } => Text::from_str(alloc, compared(state, env)),
        Branch::Fails { kind } => failure(alloc, *kind),
    }
}

/// The branches of an assumption in order.
fn assumptions(alloc: Global, branches: &List<Branch>, env: &Env) -> Result<Text, AllocError> {
    if branches.is_empty() {
        return Text::from_str(alloc, "absurd");
    }
    let mut text = Text::new(alloc);
    for branch in branches.as_slice() {
        put(&mut text, " | ", assumption(alloc, branch, env)?.as_str())?;
    }
    Ok(text)
}

/// What becomes of a demand.
fn demand(alloc: Global, state: State, cond: &Cond, env: &Env) -> Result<Text, AllocError> {
    match demand_cond(alloc, state, Kind::Assert, cond, env)? {
        Went::Goes { state } => Text::from_str(alloc, compared(&state, env)),
        Went::Infeasible => Text::from_str(alloc, "absurd"),
        Went::Fails { kind } => failure(alloc, kind),
    }
}

/// What a condition comes to.
fn asked(
    alloc: Global,
    state: State,
    cond: &Cond,
    env: &Env,
    how: How,
) -> Result<Text, AllocError> {
    match how {
        How::Decided => decisions(alloc, &decide_cond(alloc, state, cond, env)?, env),
        How::Assumed => assumptions(alloc, &assume_cond(alloc, state, true, cond, env)?, env),
        How::Denied => assumptions(alloc, &assume_cond(alloc, state, false, cond, env)?, env),
        _ => demand(alloc, state, cond, env),
    }
}

/// What an expression comes to.
fn valued(alloc: Global, state: &State, e: &Expr, env: &Env) -> Result<Text, AllocError> {
    match read(alloc, state, e, env)? {
        Some(t) => term_text(alloc, &t),
        None => Text::from_str(alloc, "no term"),
    }
}

/// What becomes of the first statement of a procedure.
fn judged(alloc: Global, proc: &Proc, how: How) -> Result<Text, AllocError> {
    match (only(alloc, proc)?, proc.body.get(0)) {
        (Some(Bound::Goes { state, env }), Some(stmt)) => match &stmt.act {
            Act::If { cond, .. } => asked(alloc, state, cond, &env, how),
            Act::Print { e } => valued(alloc, &state, e, &env),
            _ => no_program(alloc),
        },
        _ => no_program(alloc),
    }
}

/// What a condition or an expression comes to, where this is known.
fn answer(alloc: Global, known: &str, what: &str, how: How) -> Result<Text, AllocError> {
    let (front, back) = match how {
        How::Term => ("print(", ");"),
        _ => ("if (", ") { }"),
    };
    let text = format!(in alloc;
        "proc f(a, b) requires ({known}) {{ {front}{what}{back} }} proc main() {{ }}"
    )?;
    match program(alloc, text.as_str()) {
        Some(p) => match p.procs().first() {
            Some(proc) => judged(alloc, proc, how),
            None => no_program(alloc),
        },
        None => no_program(alloc),
    }
}

/// Whether each row is answered as it says.
fn are_answered(rt: &impl Abort, alloc: Global, how: How, rows: &[&str]) -> Result<(), Fail> {
    for row in rows {
        let (known, rest) = row.split_once(" => ").ok_or("no row")?;
        let (what, wanted) = rest.split_once(" => ").ok_or("no row")?;
        let got = answer(alloc, known, what, how)?;
        assert_eq!(rt; got.as_str(), wanted, "{how:?}: {row}");
    }
    Ok(())
}

#[test]
fn conditions_and_expressions_are_answered(rt: HostRuntime) -> Result<(), Fail> {
    for (how, rows) in TABLES {
        are_answered(&rt, rt.alloc(), how, rows)?;
    }
    Ok(())
}
