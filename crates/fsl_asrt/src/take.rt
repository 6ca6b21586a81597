//! Shares of cells that are taken out: the chunk has to have the share, and its value has to fit the pattern. The
//! chunk keeps what is left.
ghost use Rattle.std.specs.Prelude.{◌≡◌, ◌++◌, None, true, pos, IfOk};
ghost use Rattle.fsl_lin.specs.Combination.{constant};
ghost use Rattle.fsl_core.specs.logic.Deciding.{proves_at_most};
ghost use Rattle.fsl_core.specs.logic.Consuming.{match_value, consume_cell};
ghost use Rattle.fsl_asrt.specs.Branch.{bounds};
ghost use Rattle.fsl_asrt.specs.Cells.{IsPoints};
ghost use Rattle.fsl_asrt.specs.Pointed.{wanted_of};
ghost use Rattle.fsl_asrt.specs.Take.{IsSearched, matched, held, taken_from, rest_taken, none_left, some_left, part_left, left};

use crate::bound::{failing, going};
use crate::branch::Bound;
use crate::cells::{FoundCell, cell_at, enough_at};
use crate::pointed::{PointsTo, Value};
use crate::terms::constant;
use fsl_base::{List, TryClone};
use fsl_chunk::{Env, State, Went};
use fsl_core::{Chunk, Kind, Rung};
use fsl_lin::{Lin, LinFault};
use std::alloc::{AllocError, Global};

/// What came of looking for a share of a cell.
#[derive(Drop)]
pub enum Search {
    Found { cell: FoundCell },
    Lacks { kind: Kind },
}

/// What came of holding a value against a pattern.
#[derive(Drop)]
pub enum Matched {
    Fits { env: Env },
    Fails { kind: Kind },
}

/// The first chunk of a cell that has this share.
fn find_cell(
    alloc: Global,
    state: &State,
    rung: Rung,
    at: &Lin,
    share: &Lin,
) -> Result<Search, AllocError>
    ensures { IfOk result (IsSearched rung at.now share.now state.now) }
{
    match enough_at(alloc, state, rung, at, share)? {
        Some(cell) => Ok(Search::Found { cell }),
        None => match cell_at(alloc, state, rung, at)? {
            Some(_) => Ok(Search::Lacks { kind: Kind::Share }),
            None => Ok(Search::Lacks { kind: Kind::Points }),
        },
    }
}

/// Holds a value against a pattern, and sets a binder to it.
pub fn match_value(
    alloc: Global,
    state: &State,
    value: Value,
    known: &Option<Lin>,
    env: Env,
) -> Result<Matched, AllocError>
    ensures { IfOk result (λ m. matched m state.now ≡ match_value (wanted_of value) known.now env state.now) }
{
    match (value, known) {
        (Value::Any, _) => Ok(Matched::Fits { env }),
        (_, None) => Ok(Matched::Fails { kind: Kind::Uninit }),
        (Value::Bind { slot }, Some(t)) => {
            let mut env = env;
            env.set(alloc, slot, t.try_clone(alloc)?)?;
            Ok(Matched::Fits { env })
        }
        (Value::Is { t }, Some(v)) => Ok(held(state, v, &t, env)),
    }
}

/// A value has to be equal to another.
fn held(state: &State, v: &Lin, t: &Lin, env: Env) -> Matched
    ensures { matched result state.now ≡ held v.now t.now env state.now }
{
    if state.proves_equal(v, t) {
        Matched::Fits { env }
    } else {
        Matched::Fails { kind: Kind::Value }
    }
}

/// Takes a share of a cell out.
pub fn consume_cell(
    alloc: Global,
    state: State,
    p: PointsTo,
    env: Env,
    rung: Rung,
) -> Result<List<Bound>, AllocError>
    ensures { IfOk result (λ bs. bounds bs ≡ consume_cell rung p.at p.share (wanted_of p.value) env state) }
{
    let one = constant(alloc, 1)?;
    if state.proves_at_most(&one, 0, &p.share) {
        take_found(alloc, state, p, env, rung)
    } else {
        failing(alloc, Kind::Share)
    }
}

/// Takes a share out of the first chunk of a cell that has it.
fn take_found(
    alloc: Global,
    state: State,
    p: PointsTo,
    env: Env,
    rung: Rung,
) -> Result<List<Bound>, AllocError>
    requires { proves_at_most state.facts (constant (pos 1)) (pos 0) p.share ≡ true }
    ensures { IfOk result (λ bs. bounds bs ≡ consume_cell rung p.at p.share (wanted_of p.value) env state) }
{
    let PointsTo { at, share, value } = p;
    match find_cell(alloc, &state, rung, &at, &share)? {
        Search::Found { cell } => take(alloc, state, cell, &share, value, env, rung),
        Search::Lacks { kind } => failing(alloc, kind),
    }
}

/// Takes a share out of a chunk that has it.
fn take(
    alloc: Global,
    state: State,
    c: FoundCell,
    share: &Lin,
    value: Value,
    env: Env,
    rung: Rung,
) -> Result<List<Bound>, AllocError>
    requires { IsPoints rung c.number state.chunks }
    ensures { IfOk result (λ bs. bounds bs ≡ taken_from rung c share.now (wanted_of value) env state) }
{
    match match_value(alloc, &state, value, &c.value, env)? {
        Matched::Fits { env } => take_rest(alloc, state, c, share, env, rung),
        Matched::Fails { kind } => failing(alloc, kind),
    }
}

/// The chunk keeps what is left: nothing, or a rest of at least 1. There are two branches where neither is proved.
fn take_rest(
    alloc: Global,
    state: State,
    c: FoundCell,
    share: &Lin,
    env: Env,
    rung: Rung,
) -> Result<List<Bound>, AllocError>
    requires { IsPoints rung c.number state.chunks }
    ensures { IfOk result (λ bs. bounds bs ≡ rest_taken rung c share.now env state) }
{
    if state.proves_equal(&c.share, share) {
        all_taken(alloc, state, &c, env, rung)
    } else if state.proves_at_most(share, 1, &c.share) {
        part_taken(alloc, state, c, share, env, rung)
    } else {
        either(alloc, state, c, share, env, rung)
    }
}

/// The chunk goes.
fn all_taken(
    alloc: Global,
    state: State,
    c: &FoundCell,
    env: Env,
    rung: Rung,
) -> Result<List<Bound>, AllocError>
    requires { IsPoints rung c.now.number state.chunks }
    ensures { IfOk result (λ bs. bounds bs ≡ left rung c.now None env state) }
{
    let mut state = state;
    let _taken = state.take(c.number);
    going(alloc, state, env)
}

/// The chunk keeps a rest.
fn part_taken(
    alloc: Global,
    state: State,
    c: FoundCell,
    share: &Lin,
    env: Env,
    rung: Rung,
) -> Result<List<Bound>, AllocError>
    requires { IsPoints rung c.number state.chunks }
    ensures { IfOk result (λ bs. bounds bs ≡ part_left rung c share.now env state) }
{
    let FoundCell {
        number,
        at,
        share: whole,
        value,
    } = c;
    match whole.sub(alloc, share) {
        Ok(rest) => {
            let mut state = state;
            state.put(
                alloc,
                number,
                Chunk::Points {
                    rung,
                    at,
                    share: rest,
                    value,
                },
            )?;
            going(alloc, state, env)
        }
        Err(LinFault::Wide) => failing(alloc, Kind::Term),
        Err(LinFault::NoMemory) => Err(AllocError),
    }
}

/// The rest is at most 0, or it is at least 1.
fn either(
    alloc: Global,
    state: State,
    c: FoundCell,
    share: &Lin,
    env: Env,
    rung: Rung,
) -> Result<List<Bound>, AllocError>
    requires { IsPoints rung c.number state.chunks }
    ensures { IfOk result (λ bs. bounds bs ≡ none_left rung c share.now env state ++ some_left rung c share.now env state) }
{
    let fork = state.fork(alloc)?;
    let mut out = none_left(alloc, fork, &c, share, env.fork(alloc)?, rung)?;
    let more = some_left(alloc, state, c, share, env, rung)?;
    out.append(more)?;
    Ok(out)
}

/// The chunk goes where its share is assumed to be at most what is taken.
fn none_left(
    alloc: Global,
    state: State,
    c: &FoundCell,
    share: &Lin,
    env: Env,
    rung: Rung,
) -> Result<List<Bound>, AllocError>
    requires { IsPoints rung c.now.number state.chunks }
    ensures { IfOk result (λ bs. bounds bs ≡ none_left rung c.now share.now env state) }
{
    match state.assume_at_most(alloc, &c.share, 0, share)? {
        Went::Goes { state } => all_taken(alloc, state, c, env, rung),
        Went::Infeasible => Ok(List::new(alloc)),
        Went::Fails { kind } => failing(alloc, kind),
    }
}

/// The chunk keeps a rest that is assumed to be at least 1.
fn some_left(
    alloc: Global,
    state: State,
    c: FoundCell,
    share: &Lin,
    env: Env,
    rung: Rung,
) -> Result<List<Bound>, AllocError>
    requires { IsPoints rung c.number state.chunks }
    ensures { IfOk result (λ bs. bounds bs ≡ some_left rung c share.now env state) }
{
    match state.assume_at_most(alloc, share, 1, &c.share)? {
        Went::Goes { state } => part_taken(alloc, state, c, share, env, rung),
        Went::Infeasible => Ok(List::new(alloc)),
        Went::Fails { kind } => failing(alloc, kind),
    }
}
