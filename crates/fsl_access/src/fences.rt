//! The rule of fences.
ghost use Rattle.std.specs.Prelude.{◌≡◌, IfOk, IsTrue, filter, map, not};
ghost use Rattle.fsl_core.specs.declared.chunk.Chunk.TheVariants as chunk;
ghost use Rattle.fsl_core.specs.logic.Chunks.{same_rung};
ghost use Rattle.fsl_core.specs.logic.States.{followed};
ghost use Rattle.fsl_core.specs.logic.Joining.{at_rung, produce_cell, produce_chunk, produce_chunks};
ghost use Rattle.fsl_core.specs.logic.Assertions.{asrt_of};
ghost use Rattle.fsl_core.specs.logic.Fences.{is_at, acquire, release, only, fence};
ghost use Rattle.fsl_chunk.specs.Went.{branches as went};
ghost use Rattle.fsl_asrt.specs.Branch.{branches};
ghost use Rattle.fsl_access.specs.Fences.{part_produced};

use crate::branches::{failing, going, without_env};
use crate::modes::{acquires, releases};
use fsl_asrt::{Branch, add_cell, add_init, assume_share, consume, produce};
use fsl_base::{List, TryClone};
use fsl_chunk::{Env, State, Went};
use fsl_core::{Asrt, Chunk, Mode, Mood, Rung};
use fsl_lin::Lin;
use std::alloc::{AllocError, Global};

/// A fence. One that does both acquires first.
pub fn fence(alloc: Global, state: State, mode: Mode, a: &Asrt) -> Result<List<Branch>, AllocError>
    ensures { IfOk result (λ bs. branches bs ≡ fence mode (asrt_of a.now) state) }
{
    match acquire_where(alloc, state, acquires(mode))? {
        Went::Goes { state } => release_where(alloc, state, releases(mode), a),
        Went::Infeasible => Ok(List::new(alloc)),
        Went::Fails { kind } => failing(alloc, kind),
    }
}

/// Gives what relaxed reads have gained, where the fence acquires.
fn acquire_where(alloc: Global, state: State, acquires: bool) -> Result<Went, AllocError>
    ensures { IfOk result (λ came. went came ≡ only acquires acquire state) }
{
    if acquires {
        acquire(alloc, state)
    } else {
        Ok(Went::Goes { state })
    }
}

/// Sets resources apart for relaxed writes, where the fence releases.
fn release_where(
    alloc: Global,
    state: State,
    releases: bool,
    a: &Asrt,
) -> Result<List<Branch>, AllocError>
    ensures { IfOk result (λ bs. branches bs ≡ only releases (release (asrt_of a.now)) state) }
{
    if releases {
        release(alloc, state, a)
    } else {
        going(alloc, state)
    }
}

/// What relaxed reads have gained is taken out, and then all of it is produced.
#[tactic(auto, using(crate::proofs::FencesLemmas::acquired))]
fn acquire(alloc: Global, state: State) -> Result<Went, AllocError>
    ensures { IfOk result (λ came. went came ≡ acquire state) }
{
    let Taken { state, chunks } = take_all(alloc, state, Rung::Down, Rung::Plain)?;
    produce_chunks(alloc, state, chunks)
}

/// Chunks that were taken out, and the state without them.
#[derive(Drop)]
struct Taken {
    state: State,
    chunks: List<Chunk>,
}

/// All chunks of a rung are taken out, in order, to stand at another one.
#[tactic(auto, using(crate::proofs::FencesLemmas::item_stays, crate::proofs::FencesLemmas::item_left, crate::proofs::FencesLemmas::kept_end, crate::proofs::FencesLemmas::taken_end))]
fn take_all(alloc: Global, state: State, from: Rung, to: Rung) -> Result<Taken, AllocError>
    ensures state { IfOk result (λ t. t.state ≡ record state { chunks = filter (λ c. not (is_at from c)) state.chunks }) }
    ensures chunks { IfOk result (λ t. t.chunks ≡ map (at_rung to) (filter (is_at from) state.chunks)) }
{
    let mut state = state;
    let mut chunks = List::new(alloc);
    let mut number = 0u32;
    'take: while number < state.heap().len() {
        if is_at(from, state.heap().at(number)) {
            let chunk = state.take(number);
            chunks.push(at_rung(alloc, from, to, chunk.get())?)?;
        } else {
            number += 1;
        }
    }
    Ok(Taken { state, chunks })
}

/// Whether two rungs are the same.
fn same_rung(rung: Rung, other: Rung) -> bool
    ensures { result ≡ same_rung rung other }
{
    match (rung, other) {
        (Rung::Plain, Rung::Plain)
        | (Rung::Up, Rung::Up)
        | (Rung::Down, Rung::Down)
        | (Rung::Msg, Rung::Msg) => true,
        _ => false,
    }
}

/// Whether a chunk stands at a rung.
fn is_at(rung: Rung, chunk: &Chunk) -> bool
    ensures { result ≡ is_at rung chunk.now }
{
    match chunk {
        Chunk::Points { rung: r, .. } | Chunk::Init { rung: r, .. } => same_rung(*r, rung),
        _ => false,
    }
}

/// A chunk that stands at a rung, at another one.
fn at_rung(alloc: Global, _from: Rung, rung: Rung, chunk: &Chunk) -> Result<Chunk, AllocError>
    requires { IsTrue (is_at _from chunk.now) }
    ensures { IfOk result (λ c. c ≡ at_rung rung chunk.now) }
{
    match chunk {
        Chunk::Points {
            at,
            share,
            value,
            ..
        } => points_at(alloc, rung, at, share, value),
        Chunk::Init { at, .. } => {
            let at = at.try_clone(alloc)?;
            Ok(Chunk::Init { rung, at })
        }
        _ => unreachable!(),
    }
}

/// A share of a cell at a rung.
fn points_at(
    alloc: Global,
    rung: Rung,
    at: &Lin,
    share: &Lin,
    value: &Option<Lin>,
) -> Result<Chunk, AllocError>
    ensures { IfOk result (λ c. c ≡ chunk.Points rung at.now share.now value.now) }
{
    let at = at.try_clone(alloc)?;
    let share = share.try_clone(alloc)?;
    let value = match value {
        Some(v) => Some(v.try_clone(alloc)?),
        None => None,
    };
    Ok(Chunk::Points {
        rung,
        at,
        share,
        value,
    })
}

/// Chunks that stand at rungs are produced, one after the other.
#[tactic(auto, using(crate::proofs::FencesLemmas::chunks_more, crate::proofs::FencesLemmas::chunks_infeasible, crate::proofs::FencesLemmas::chunks_fail))]
fn produce_chunks(alloc: Global, state: State, chunks: List<Chunk>) -> Result<Went, AllocError>
    ensures { IfOk result (λ came. went came ≡ produce_chunks chunks state) }
{
    let mut state = state;
    for chunk in chunks.into_vec() {
        state = match produce_chunk(alloc, state, chunk)? {
            Went::Goes { state } => state,
            Went::Infeasible => return Ok(Went::Infeasible),
            Went::Fails { kind } => return Ok(Went::Fails { kind }),
        };
    }
    Ok(Went::Goes { state })
}

/// A chunk that stands at a rung is produced.
fn produce_chunk(alloc: Global, state: State, chunk: Chunk) -> Result<Went, AllocError>
    ensures { IfOk result (λ came. went came ≡ produce_chunk chunk state) }
{
    match chunk {
        Chunk::Points {
            rung,
            at,
            share,
            value,
        } => produce_cell(alloc, state, rung, at, share, value),
        Chunk::Init { rung, at } => add_init(alloc, state, rung, at),
        _ => Ok(Went::Goes { state }),
    }
}

/// A share of a cell is produced.
fn produce_cell(
    alloc: Global,
    state: State,
    rung: Rung,
    at: Lin,
    share: Lin,
    value: Option<Lin>,
) -> Result<Went, AllocError>
    ensures { IfOk result (λ came. went came ≡ produce_cell rung (record { at = at; share = share; value = value }) state) }
{
    match assume_share(alloc, state, &share)? {
        Went::Goes { state } => add_cell(alloc, state, rung, at, share, value),
        Went::Infeasible => Ok(Went::Infeasible),
        Went::Fails { kind } => Ok(Went::Fails { kind }),
    }
}

/// An assertion is consumed where it can be used, and produced where relaxed writes take it.
fn release(alloc: Global, state: State, a: &Asrt) -> Result<List<Branch>, AllocError>
    ensures { IfOk result (λ bs. branches bs ≡ release (asrt_of a.now) state) }
{
    let env = state.env().fork(alloc)?;
    let own = env.fork(alloc)?;
    let given = consume(alloc, state, a, own, Rung::Plain, Mood::Cond)?;
    let given = without_env(alloc, given)?;
    produce_on_each(alloc, given, Rung::Up, &env, a)
}

/// On each branch an assertion is produced.
fn produce_on_each(
    alloc: Global,
    before: List<Branch>,
    rung: Rung,
    env: &Env,
    a: &Asrt,
) -> Result<List<Branch>, AllocError>
    ensures { IfOk result (λ bs. branches bs ≡ followed (branches before) (λ _. part_produced rung env.now (asrt_of a.now))) }
{
    let mut out = List::new(alloc);
    for branch in before.into_vec() {
        match branch {
            Branch::Goes { state } => {
                let more = produce_alone(alloc, state, rung, env, a)?;
                out.append(more)?;
            }
            Branch::Fails { kind } => out.push(Branch::Fails { kind })?,
        }
    }
    Ok(out)
}

/// An assertion is produced, and its binders aren't seen.
fn produce_alone(
    alloc: Global,
    state: State,
    rung: Rung,
    env: &Env,
    a: &Asrt,
) -> Result<List<Branch>, AllocError>
    ensures { IfOk result (λ bs. branches bs ≡ part_produced rung env.now (asrt_of a.now) state) }
{
    let env = env.fork(alloc)?;
    let bound = produce(alloc, state, a, env, rung)?;
    without_env(alloc, bound)
}
