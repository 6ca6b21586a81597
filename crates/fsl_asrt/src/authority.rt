//! The authority over a bank, produced and consumed. A bank has one, and no chunk of its tokens holds more than it
//! allows.
ghost use Rattle.std.specs.Prelude.{◌≡◌, Some, pos, IfOk};
ghost use Rattle.fsl_core.specs.logic.Terms.{expr_of};
ghost use Rattle.fsl_core.specs.logic.Chunks.{tokens_of};
ghost use Rattle.fsl_core.specs.logic.Deciding.{assume_at_most};
ghost use Rattle.fsl_core.specs.logic.Joining.{nought, counted, assume_count, assume_counts, produce_authority};
ghost use Rattle.fsl_core.specs.logic.Producing.{auth_produced};
ghost use Rattle.fsl_core.specs.logic.Consuming.{consume_authority, auth_consumed};
ghost use Rattle.fsl_lin.specs.Combination.{constant};
ghost use Rattle.fsl_chunk.specs.Went.{branches};
ghost use Rattle.fsl_chunk.specs.declared.kind.ChunkKind.TheVariants.{Auth};
ghost use Rattle.fsl_asrt.specs.Branch.{bounds};
ghost use Rattle.fsl_asrt.specs.Counts.{IsOf, sole, bounding, contradicted, authority_taken};

use crate::asked::read;
use crate::bound::{failing, went_with};
use crate::branch::Bound;
use crate::counts::{FoundCount, authority_of};
use crate::terms::{constant, var};
use crate::tokens::at_least_none;
use fsl_base::{List, TryClone};
use fsl_chunk::{Env, State, Want, Went};
use fsl_core::{Chunk, Expr, Kind, Mood, Rung};
use fsl_lin::Lin;
use std::alloc::{AllocError, Global};

/// Produces the authority. It has no rung.
#[tactic(auto, using(crate::proofs::Laws::got, crate::proofs::Laws::lacked))]
pub fn produce_auth(
    alloc: Global,
    state: State,
    bank: u32,
    n: &Expr,
    env: Env,
    rung: Rung,
) -> Result<List<Bound>, AllocError>
    ensures { IfOk result (λ bs. bounds bs ≡ auth_produced bank (expr_of n.now) rung env state) }
{
    match read(alloc, &state, n, &env)? {
        Some(n) => {
            let bank = var(alloc, &env, bank)?;
            let went = add_authority(alloc, state, bank, n)?;
            went_with(alloc, went, env)
        }
        None => failing(alloc, Kind::Term),
    }
}

/// Consumes the authority. It has no rung and no mood.
#[tactic(auto, using(crate::proofs::Laws::got, crate::proofs::Laws::lacked))]
pub fn consume_auth(
    alloc: Global,
    state: State,
    bank: u32,
    n: &Expr,
    env: Env,
    rung: Rung,
    mood: Mood,
) -> Result<List<Bound>, AllocError>
    ensures { IfOk result (λ bs. bounds bs ≡ auth_consumed bank (expr_of n.now) mood rung env state) }
{
    match read(alloc, &state, n, &env)? {
        Some(n) => {
            let bank = var(alloc, &env, bank)?;
            let went = take_authority(alloc, state, &bank, &n)?;
            went_with(alloc, went, env)
        }
        None => failing(alloc, Kind::Term),
    }
}

/// Adds the authority over a bank.
pub fn add_authority(alloc: Global, state: State, bank: Lin, n: Lin) -> Result<Went, AllocError>
    ensures { IfOk result (λ went. branches went ≡ produce_authority bank n state) }
{
    match at_least_none(alloc, state, &n)? {
        Went::Goes { state } => add_sole(alloc, state, bank, n),
        Went::Infeasible => Ok(Went::Infeasible),
        Went::Fails { kind } => Ok(Went::Fails { kind }),
    }
}

/// A bank has one authority, so a second one is a contradiction.
fn add_sole(alloc: Global, state: State, bank: Lin, n: Lin) -> Result<Went, AllocError>
    ensures { IfOk result (λ went. branches went ≡ sole bank n state) }
{
    match state.find(&Want::Auth { bank: &bank }) {
        Some(_number) => add_second(alloc, state, bank, n),
        None => add_bounding(alloc, state, bank, n),
    }
}

/// The authority is there already.
fn add_second(alloc: Global, state: State, bank: Lin, n: Lin) -> Result<Went, AllocError>
    ensures { IfOk result (λ went. branches went ≡ contradicted bank n state) }
{
    match contradict(alloc, state)? {
        Went::Goes { state } => add_bounding(alloc, state, bank, n),
        Went::Infeasible => Ok(Went::Infeasible),
        Went::Fails { kind } => Ok(Went::Fails { kind }),
    }
}

/// Assumes that 1 <= 0.
fn contradict(alloc: Global, state: State) -> Result<Went, AllocError>
    ensures { IfOk result (λ went. branches went ≡ assume_at_most (constant (pos 1)) (pos 0) nought state) }
{
    let one = constant(alloc, 1)?;
    let nought = constant(alloc, 0)?;
    state.assume_at_most(alloc, &one, 0, &nought)
}

/// The authority bounds the tokens that are there.
#[tactic(auto, using(crate::proofs::AuthorityLemmas::bounded, crate::proofs::AuthorityLemmas::bounded_none, crate::proofs::AuthorityLemmas::bounded_fails))]
fn add_bounding(alloc: Global, state: State, bank: Lin, n: Lin) -> Result<Went, AllocError>
    ensures { IfOk result (λ went. branches went ≡ bounding bank n state) }
{
    match assume_counts(alloc, state, &bank, &n)? {
        Went::Goes { state } => state.add(alloc, Chunk::Auth { bank, n }),
        Went::Infeasible => Ok(Went::Infeasible),
        Went::Fails { kind } => Ok(Went::Fails { kind }),
    }
}

/// Assumes that each chunk of tokens of a bank holds at most n.
#[tactic(auto, using(crate::proofs::AuthorityLemmas::counted_all))]
fn assume_counts(alloc: Global, state: State, bank: &Lin, n: &Lin) -> Result<Went, AllocError>
    ensures { IfOk result (λ went. branches went ≡ assume_counts bank.now n.now state.chunks state) }
{
    let count = state.heap().len();
    let mut state = state;
    for number in 0..count {
        let held = held_by(alloc, &state, state.heap().at(number), bank)?;
        match assume_count(alloc, state, held, n)? {
            Went::Goes { state: next } => state = next,
            Went::Infeasible => return Ok(Went::Infeasible),
            Went::Fails { kind } => return Ok(Went::Fails { kind }),
        }
    }
    Ok(Went::Goes { state })
}

/// How many tokens of a bank a chunk holds, if it holds any.
#[tactic(auto, using(crate::proofs::AuthorityLemmas::held_some, crate::proofs::AuthorityLemmas::held_none))]
fn held_by(
    alloc: Global,
    state: &State,
    chunk: &Chunk,
    bank: &Lin,
) -> Result<Option<Lin>, AllocError>
    ensures { IfOk result (λ k. k ≡ counted (tokens_of bank.now state.now.facts chunk.now)) }
{
    match chunk {
        Chunk::Tok { bank: held, n } => {
            if state.proves_equal(held, bank) {
                Ok(Some(n.try_clone(alloc)?))
            } else {
                Ok(None)
            }
        }
        _ => Ok(None),
    }
}

/// Assumes that tokens that were counted are at most n.
fn assume_count(alloc: Global, state: State, k: Option<Lin>, n: &Lin) -> Result<Went, AllocError>
    ensures { IfOk result (λ went. branches went ≡ assume_count k (Some n.now) state) }
{
    match k {
        Some(k) => state.assume_at_most(alloc, &k, 0, n),
        None => Ok(Went::Goes { state }),
    }
}

/// Takes the authority over a bank out.
pub fn take_authority(alloc: Global, state: State, bank: &Lin, n: &Lin) -> Result<Went, AllocError>
    ensures { IfOk result (λ went. branches went ≡ consume_authority bank.now n.now state) }
{
    match authority_of(alloc, &state, bank)? {
        Some(a) => Ok(take_equal(state, &a, n)),
        None => Ok(Went::Fails { kind: Kind::Token }),
    }
}

/// Takes the chunk of an authority out, where it allows n.
#[tactic(auto, using(crate::proofs::AuthorityLemmas::allows, crate::proofs::AuthorityLemmas::allows_other))]
fn take_equal(state: State, a: &FoundCount, n: &Lin) -> Went
    requires { IsOf Auth a.now.number state.chunks }
    ensures { branches result ≡ authority_taken a.now n.now state }
{
    if state.proves_equal(&a.n, n) {
        let mut state = state;
        let _taken = state.take(a.number);
        Went::Goes { state }
    } else {
        Went::Fails { kind: Kind::Token }
    }
}
