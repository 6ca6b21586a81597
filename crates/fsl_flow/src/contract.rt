//! Where a procedure starts and ends, and the invariants of its loops.
ghost use Rattle.std.specs.Prelude.{◌≡◌, [], ◌∷◌, IfOk};
ghost use Rattle.fsl_core.specs.logic.States.{followed, change};
ghost use Rattle.fsl_core.specs.logic.Terms.{expr_of};
ghost use Rattle.fsl_core.specs.logic.Deciding.{cond_of, assume_cond};
ghost use Rattle.fsl_core.specs.logic.Joining.{nought};
ghost use Rattle.fsl_core.specs.logic.Assertions.{asrt_of};
ghost use Rattle.fsl_core.specs.logic.Locations.{contract_of};
ghost use Rattle.fsl_core.specs.logic.Calls as calls;
ghost use Rattle.fsl_core.specs.logic.Calls.{new_symbols, enter};
ghost use Rattle.fsl_core.specs.logic.Paths.{start, return, give_inv};
ghost use Rattle.fsl_asrt.specs.Branch.{branches, bounds, bound_of};

use fsl_access::{failing, padded, without_env};
use fsl_asrt::{Bound, Branch, constant, consume, produce, read};
use fsl_base::List;
use fsl_chunk::{Env, Made, State};
use fsl_core::{Asrt, Expr, Kind, Mood, Proc, Rung};
use fsl_lin::Lin;
use std::alloc::{AllocError, Global};

/// Branches whose environments are those of the states from now on.
fn with_env(alloc: Global, bound: List<Bound>) -> Result<List<Branch>, AllocError>
    ensures { IfOk result (λ bs. branches bs ≡ followed (bounds bound) (λ e. change (λ s. record s { env = e }))) }
{
    let mut out = List::new(alloc);
    for branch in bound.into_vec() {
        match branch {
            Bound::Goes { mut state, env } => {
                state.set_env(env);
                out.push(Branch::Goes { state })?;
            }
            Bound::Fails { kind } => out.push(Branch::Fails { kind })?,
        }
    }
    Ok(out)
}

/// The procedure ends with a result: its `ensures` is consumed, and what is left is dropped.
#[tactic(auto, using(crate::proofs::ContractLemmas::finished))]
pub fn finish(alloc: Global, state: State, post: &Asrt, t: Lin) -> Result<List<Branch>, AllocError>
    ensures { IfOk result (λ bs. branches bs ≡ calls.finish (asrt_of post.now) t state) }
{
    let mut env = state.env().fork(alloc)?;
    env.push(alloc, t)?;
    let bound = consume(alloc, state, post, env, Rung::Plain, Mood::Post)?;
    without_env(alloc, bound)
}

/// The closing brace: the procedure ends with the result 0.
pub fn close(alloc: Global, state: State, post: &Asrt) -> Result<List<Branch>, AllocError>
    ensures { IfOk result (λ bs. branches bs ≡ calls.finish (asrt_of post.now) nought state) }
{
    let t = constant(alloc, 0)?;
    finish(alloc, state, post, t)
}

/// A `return`: the procedure ends with the result of an expression.
#[tactic(auto, using(crate::proofs::ContractLemmas::returned, crate::proofs::ContractLemmas::not_returned))]
pub fn return_with(
    alloc: Global,
    state: State,
    post: &Asrt,
    e: &Expr,
) -> Result<List<Branch>, AllocError>
    ensures { IfOk result (λ bs. branches bs ≡ return (asrt_of post.now) (expr_of e.now) state) }
{
    match read(alloc, &state, e, state.env())? {
        Some(t) => finish(alloc, state, post, t),
        None => failing(alloc, Kind::Term),
    }
}

/// The invariant of a loop is given: it is consumed.
#[tactic(auto, using(crate::proofs::ContractLemmas::inv_given))]
pub fn give_inv(alloc: Global, state: State, inv: &Asrt) -> Result<List<Branch>, AllocError>
    ensures { IfOk result (λ bs. branches bs ≡ give_inv (asrt_of inv.now) state) }
{
    let env = state.env().fork(alloc)?;
    let bound = consume(alloc, state, inv, env, Rung::Plain, Mood::Loop)?;
    without_env(alloc, bound)
}

/// New symbols for so many parameters, behind one another.
#[tactic(auto, using(crate::proofs::ContractLemmas::symbols_goes, crate::proofs::ContractLemmas::symbols_fails))]
fn new_symbols(alloc: Global, state: State, params: u32) -> Result<Bound, AllocError>
    ensures { IfOk result (λ bound. bound_of bound ∷ [] ≡ new_symbols params state) }
{
    let mut state = state;
    let mut env = Env::new(alloc);
    for _param in 0..params {
        state = match state.new_symbol(alloc)? {
            Made::Goes { state, symbol } => {
                env.push(alloc, symbol)?;
                state
            }
            Made::Fails { kind } => return Ok(Bound::Fails { kind }),
        };
    }
    Ok(Bound::Goes { state, env })
}

/// A procedure starts with new symbols for its parameters, and what its `requires` says.
#[tactic(auto, using(crate::proofs::ContractLemmas::entered, crate::proofs::ContractLemmas::not_entered))]
pub fn enter(alloc: Global, proc: &Proc) -> Result<List<Branch>, AllocError>
    ensures { IfOk result (λ bs. branches bs ≡ enter (contract_of asrt_of proc.now) start) }
{
    let state = State::new(alloc, Env::new(alloc))?;
    match new_symbols(alloc, state, proc.params)? {
        Bound::Goes { state, env } => {
            let env = padded(alloc, env, proc.slots)?;
            let bound = produce(alloc, state, &proc.pre, env, Rung::Plain)?;
            with_env(alloc, bound)
        }
        Bound::Fails { kind } => failing(alloc, kind),
    }
}
