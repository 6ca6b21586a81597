//! The parts of a location's invariant at a value: all of them consumed, or one of them produced.
ghost use Rattle.std.specs.Prelude.{◌≡◌, ◌∷◌, [], ◌++◌, IfOk, option_copied, slice_get};
ghost use Rattle.fsl_core.specs.logic.States.{followed};
ghost use Rattle.fsl_core.specs.logic.Assertions.{asrt_of};
ghost use Rattle.fsl_core.specs.logic.Locations.{setting_of, padded, consume_parts, parts_at, produce_part, part_at};
ghost use Rattle.fsl_asrt.specs.Branch.{branches};
ghost use Rattle.fsl_chunk.specs.Fits.{leave_of};
ghost use Rattle.fsl_access.specs.Pieces.{parts_in, part_consumed, piece_at};

use crate::branches::{going, without_env};
use fsl_asrt::{Branch, constant, consume, produce};
use fsl_base::{List, TryClone};
use fsl_chunk::{Env, Leave, State};
use fsl_core::{Asrt, Inv, Mood, Program, Rung};
use fsl_lin::Lin;
use std::alloc::{AllocError, Global};

/// The invariant of a number, if there is one.
pub fn invariant(p: &Program, number: u32) -> Option<&Inv>
    ensures value { option_copied result ≡ slice_get p.now.invs number }
{
    p.invs().get(number as usize)
}

/// An environment with a zero for each slot that is not set yet.
#[tactic(auto, using(crate::proofs::PiecesLemmas::padded_more, crate::proofs::PiecesLemmas::padded_full))]
pub fn padded(alloc: Global, env: Env, slots: u32) -> Result<Env, AllocError>
    ensures { IfOk result (λ all. all ≡ padded slots env) }
{
    let mut all = env;
    'pad: while all.len() < slots as usize {
        let zero = constant(alloc, 0)?;
        all.push(alloc, zero)?;
    }
    Ok(all)
}

/// The arguments of an invariant, and behind them its value.
fn valued(alloc: Global, args: &[Lin], v: &Lin) -> Result<Env, AllocError>
    ensures { IfOk result (λ env. env ≡ args.now ++ v.now ∷ []) }
{
    let mut env = Env::new(alloc);
    for arg in args {
        env.push(alloc, arg.try_clone(alloc)?)?;
    }
    env.push(alloc, v.try_clone(alloc)?)?;
    Ok(env)
}

/// The environment in which the parts of an invariant are read.
fn env_at(alloc: Global, inv: &Inv, args: &[Lin], v: &Lin) -> Result<Env, AllocError>
    ensures { IfOk result (λ env. env ≡ padded inv.now.slots (args.now ++ v.now ∷ [])) }
{
    let env = valued(alloc, args, v)?;
    padded(alloc, env, inv.slots)
}

/// All parts of the invariant of a location at a value are consumed, in order.
pub fn consume_parts(
    alloc: Global,
    p: &Program,
    state: State,
    rung: Rung,
    l: &Leave,
    v: &Lin,
) -> Result<List<Branch>, AllocError>
    ensures { IfOk result (λ bs. branches bs ≡ consume_parts rung (parts_at (setting_of asrt_of p.now) (leave_of l.now) v.now) state) }
{
    match invariant(p, l.inv) {
        Some(inv) => {
            let env = env_at(alloc, inv, l.args.as_slice(), v)?;
            consume_each(alloc, state, rung, &env, inv.parts.as_slice())
        }
        None => going(alloc, state),
    }
}

/// Parts are consumed, one after the other.
#[tactic(auto, using(crate::proofs::PiecesLemmas::parts_first))]
fn consume_each(
    alloc: Global,
    state: State,
    rung: Rung,
    env: &Env,
    parts: &[Asrt],
) -> Result<List<Branch>, AllocError>
    ensures { IfOk result (λ bs. branches bs ≡ consume_parts rung (parts_in env.now parts.now) state) }
{
    let mut before = going(alloc, state)?;
    for part in parts {
        before = consume_on_each(alloc, before, rung, env, part)?;
    }
    Ok(before)
}

/// On each branch a part is consumed.
fn consume_on_each(
    alloc: Global,
    before: List<Branch>,
    rung: Rung,
    env: &Env,
    part: &Asrt,
) -> Result<List<Branch>, AllocError>
    ensures { IfOk result (λ bs. branches bs ≡ followed (branches before) (λ _. part_consumed rung env.now (asrt_of part.now))) }
{
    let mut out = List::new(alloc);
    for branch in before.into_vec() {
        match branch {
            Branch::Goes { state } => {
                let more = consume_part(alloc, state, rung, env, part)?;
                out.append(more)?;
            }
            Branch::Fails { kind } => out.push(Branch::Fails { kind })?,
        }
    }
    Ok(out)
}

/// A part is consumed. Its binders are not seen in another.
fn consume_part(
    alloc: Global,
    state: State,
    rung: Rung,
    env: &Env,
    part: &Asrt,
) -> Result<List<Branch>, AllocError>
    ensures { IfOk result (λ bs. branches bs ≡ part_consumed rung env.now (asrt_of part.now) state) }
{
    let env = env.fork(alloc)?;
    let bound = consume(alloc, state, part, env, rung, Mood::Cond)?;
    without_env(alloc, bound)
}

/// One part of the invariant of a location at a value is produced.
pub fn produce_part(
    alloc: Global,
    p: &Program,
    state: State,
    rung: Rung,
    l: &Leave,
    part: u32,
    v: &Lin,
) -> Result<List<Branch>, AllocError>
    ensures { IfOk result (λ bs. branches bs ≡ produce_part rung (part_at (setting_of asrt_of p.now) (leave_of l.now) part v.now) state) }
{
    match invariant(p, l.inv) {
        Some(inv) => produce_of(alloc, state, rung, inv, l.args.as_slice(), part, v),
        None => going(alloc, state),
    }
}

/// One part of an invariant is produced.
fn produce_of(
    alloc: Global,
    state: State,
    rung: Rung,
    inv: &Inv,
    args: &[Lin],
    part: u32,
    v: &Lin,
) -> Result<List<Branch>, AllocError>
    ensures { IfOk result (λ bs. branches bs ≡ produce_part rung (piece_at inv.now args.now part v.now) state) }
{
    match inv.parts.get(part as usize) {
        Some(asrt) => {
            let env = env_at(alloc, inv, args, v)?;
            let bound = produce(alloc, state, asrt, env, rung)?;
            without_env(alloc, bound)
        }
        None => going(alloc, state),
    }
}
