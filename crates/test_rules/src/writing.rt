//! Terms, branches and what they own and know, written as an assertion would say it.
use fsl_asrt::Bound;
use fsl_base::{List, Text};
use fsl_chunk::{Env, State};
use fsl_core::{Chunk, Kind};
use fsl_lin::{Lin, Sym};
use std::alloc::{AllocError, Global};

/// The symbols with their names: the two parameters of each row's procedure, and then its binders.
const NAMES: [(Sym, &str); 4] = [(Sym(0), "a"), (Sym(1), "b"), (Sym(2), "c"), (Sym(3), "d")];

/// How many variables a row's procedure has at most.
const VARIABLES: u32 = 4;

/// All shares of a cell, which aren't written.
const FULL: &str = "9223372036854775808";

/// Writes one more item behind the others.
pub fn put(text: &mut Text, between: &str, item: &str) -> Result<(), AllocError> {
    if !text.as_str().is_empty() {
        text.push_str(between)?;
    }
    text.push_str(item)
}

/// A multiple of a symbol.
fn multiple(alloc: Global, count: i128, name: &str) -> Result<String, AllocError> {
    match count {
        1 => String::from_str(alloc, name),
        -1 => format!(in alloc; "-{name}"),
        _ => format!(in alloc; "{count} * {name}"),
    }
}

/// A term, such as `-a + 2 * b + 7`.
pub fn term_text(alloc: Global, t: &Lin) -> Result<Text, AllocError> {
    let mut text = Text::new(alloc);
    for (symbol, name) in NAMES {
        let count = t.coefficient(symbol);
        if count != 0 {
            put(&mut text, " + ", multiple(alloc, count, name)?.as_str())?;
        }
    }
    let rest = t.rest();
    if rest != 0 || text.as_str().is_empty() {
        put(&mut text, " + ", format!(in alloc; "{rest}")?.as_str())?;
    }
    Ok(text)
}

/// What stands between the address and the value of a cell.
fn share_text(alloc: Global, share: &Lin) -> Result<String, AllocError> {
    let share = term_text(alloc, share)?;
    let share = share.as_str();
    if share == FULL {
        String::from_str(alloc, "|->")
    } else {
        format!(in alloc; "|->[{share}]")
    }
}

/// The value of a cell, where it is known.
fn value_text(alloc: Global, value: &Option<Lin>) -> Result<Text, AllocError> {
    match value {
        Some(value) => term_text(alloc, value),
        None => Text::from_str(alloc, "_"),
    }
}

/// A share of a cell.
fn cell_text(alloc: Global, chunk: &Chunk) -> Result<String, AllocError> {
    let Chunk::Points {
        at,
        share,
        value,
        ..
    } = chunk
    else {
        return String::from_str(alloc, "another chunk");
    };
    let at = term_text(alloc, at)?;
    let share = share_text(alloc, share)?;
    let value = value_text(alloc, value)?;
    let (at, share, value) = (at.as_str(), share.as_str(), value.as_str());
    format!(in alloc; "{at} {share} {value}")
}

/// The closest that is proved of two terms; nothing where they can't be compared.
pub fn relation(state: &State, a: &Lin, b: &Lin) -> &'static str {
    if state.proves_equal(a, b) {
        "=="
    } else if state.proves_at_most(a, 1, b) {
        "<"
    } else if state.proves_at_most(b, 1, a) {
        ">"
    } else if state.proves_at_most(a, 0, b) {
        "<="
    } else if state.proves_at_most(b, 0, a) {
        ">="
    } else {
        ""
    }
}

/// What is known of two variables.
fn put_fact(
    alloc: Global,
    text: &mut Text,
    state: &State,
    a: &Lin,
    b: &Lin,
) -> Result<(), AllocError> {
    let relation = relation(state, a, b);
    if relation.is_empty() {
        return Ok(());
    }
    let a = term_text(alloc, a)?;
    let b = term_text(alloc, b)?;
    let (a, b) = (a.as_str(), b.as_str());
    put(
        text,
        " &*& ",
        format!(in alloc; "{a} {relation} {b}")?.as_str(),
    )
}

/// What is known of each pair of variables.
fn put_facts(alloc: Global, text: &mut Text, state: &State, env: &Env) -> Result<(), AllocError> {
    for later in 0..VARIABLES {
        for earlier in 0..later {
            if let (Some(a), Some(b)) = (env.get(earlier), env.get(later)) {
                put_fact(alloc, text, state, a, b)?;
            }
        }
    }
    Ok(())
}

/// The cells that a state owns in order, and what it knows of the variables.
fn state_text(alloc: Global, state: &State, env: &Env) -> Result<Text, AllocError> {
    let mut text = Text::new(alloc);
    for number in 0..state.heap().len() {
        let cell = cell_text(alloc, state.heap().at(number))?;
        put(&mut text, " &*& ", cell.as_str())?;
    }
    put_facts(alloc, &mut text, state, env)?;
    if text.as_str().is_empty() {
        text.push_str("emp")?;
    }
    Ok(text)
}

/// The kind by which something fails.
pub fn failure(alloc: Global, kind: Kind) -> Result<Text, AllocError> {
    Ok(Text::from_string(format!(in alloc; "fails {kind:?}")?))
}

/// A branch: what it owns and knows, or the kind by which it fails.
fn branch_text(alloc: Global, branch: &Bound) -> Result<Text, AllocError> {
    match branch {
        Bound::Goes { state, env } => state_text(alloc, state, env),
        Bound::Fails { kind } => failure(alloc, *kind),
    }
}

/// Branches in order.
pub fn branches_text(alloc: Global, branches: &List<Bound>) -> Result<Text, AllocError> {
    let mut text = Text::new(alloc);
    for branch in branches.as_slice() {
        put(&mut text, " | ", branch_text(alloc, branch)?.as_str())?;
    }
    if text.as_str().is_empty() {
        text.push_str("absurd")?;
    }
    Ok(text)
}
