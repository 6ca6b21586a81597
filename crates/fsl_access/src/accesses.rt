//! The rules of allocations, loads, stores and frees of non-atomic cells.
ghost use Rattle.std.specs.Prelude.{◌≡◌, pos, IfOk};
ghost use Rattle.fsl_core.specs.declared.mode.Rung.TheVariants.{Plain};
ghost use Rattle.fsl_core.specs.logic.Terms.{expr_of};
ghost use Rattle.fsl_core.specs.logic.Deciding.{assume_at_most};
ghost use Rattle.fsl_core.specs.logic.Accesses.{alloc_na, load_na, store_na, free};
ghost use Rattle.fsl_lin.specs.Combination.{constant};
ghost use Rattle.fsl_chunk.specs.Went.{branches};
ghost use Rattle.fsl_asrt.specs.Cells.{IsPoints};
ghost use Rattle.fsl_access.specs.Accesses.{addressed, placed, loaded, written, freed};

use fsl_asrt::{FULL, FoundCell, cell_at, constant, read};
use fsl_base::TryClone;
use fsl_chunk::{Made, State, Went};
use fsl_core::{Chunk, Expr, Kind, Rung};
use fsl_lin::Lin;
use std::alloc::{AllocError, Global};

/// A cell is allocated. Its address is a new symbol that is at least 1.
#[tactic(auto, using(crate::proofs::AccessesLemmas::allocated, fsl_asrt::proofs::Laws::then_goes, fsl_asrt::proofs::Laws::then_fails))]
pub fn alloc_na(alloc: Global, state: State, slot: u32) -> Result<Went, AllocError>
    ensures { IfOk result (λ went. branches went ≡ alloc_na slot state) }
{
    match state.new_symbol(alloc)? {
        Made::Goes { state, symbol } => addressed(alloc, state, slot, symbol),
        Made::Fails { kind } => Ok(Went::Fails { kind }),
    }
}

/// Assumes that an address is at least 1.
pub fn at_least_one(alloc: Global, state: State, at: &Lin) -> Result<Went, AllocError>
    ensures { IfOk result (λ went. branches went ≡ assume_at_most (constant (pos 1)) (pos 0) at.now state) }
{
    let one = constant(alloc, 1)?;
    state.assume_at_most(alloc, &one, 0, at)
}

/// An address is at least 1, and its cell is owned.
fn addressed(alloc: Global, state: State, slot: u32, at: Lin) -> Result<Went, AllocError>
    ensures { IfOk result (λ went. branches went ≡ addressed slot at state) }
{
    match at_least_one(alloc, state, &at)? {
        Went::Goes { state } => placed(alloc, state, slot, at),
        Went::Infeasible => Ok(Went::Infeasible),
        Went::Fails { kind } => Ok(Went::Fails { kind }),
    }
}

/// A cell without a value is owned, and a variable is set to its address.
fn placed(alloc: Global, state: State, slot: u32, at: Lin) -> Result<Went, AllocError>
    ensures { IfOk result (λ went. branches went ≡ placed slot at state) }
{
    let chunk = Chunk::Points {
        rung: Rung::Plain,
        at: at.try_clone(alloc)?,
        share: constant(alloc, FULL)?,
        value: None,
    };
    match state.add(alloc, chunk)? {
        Went::Goes { mut state } => {
            state.set(alloc, slot, at)?;
            Ok(Went::Goes { state })
        }
        Went::Infeasible => Ok(Went::Infeasible),
        Went::Fails { kind } => Ok(Went::Fails { kind }),
    }
}

/// A load of the cell at an address; a variable is set to its value.
#[tactic(auto, using(crate::proofs::AccessesLemmas::load_found, crate::proofs::AccessesLemmas::load_none, crate::proofs::AccessesLemmas::load_wide))]
pub fn load_na(alloc: Global, state: State, slot: u32, at: &Expr) -> Result<Went, AllocError>
    ensures { IfOk result (λ went. branches went ≡ load_na slot (expr_of at.now) state) }
{
    let Some(a) = read(alloc, &state, at, state.env())? else {
        return Ok(Went::Fails { kind: Kind::Term });
    };
    match cell_at(alloc, &state, Rung::Plain, &a)? {
        Some(FoundCell { value, .. }) => loaded(alloc, state, slot, value),
        None => Ok(Went::Fails { kind: Kind::Points }),
    }
}

/// A variable is set to the value of a cell, which has to be known.
fn loaded(alloc: Global, state: State, slot: u32, value: Option<Lin>) -> Result<Went, AllocError>
    ensures { IfOk result (λ went. branches went ≡ loaded slot value state) }
{
    match value {
        Some(v) => {
            let mut state = state;
            state.set(alloc, slot, v)?;
            Ok(Went::Goes { state })
        }
        None => Ok(Went::Fails { kind: Kind::Uninit }),
    }
}

/// A store to the cell at an address, of which all shares have to be owned.
#[tactic(auto, using(crate::proofs::AccessesLemmas::store_found, crate::proofs::AccessesLemmas::store_none, crate::proofs::AccessesLemmas::store_wide, crate::proofs::AccessesLemmas::value_wide, crate::proofs::AccessesLemmas::points_found))]
pub fn store_na(alloc: Global, state: State, at: &Expr, e: &Expr) -> Result<Went, AllocError>
    ensures { IfOk result (λ went. branches went ≡ store_na (expr_of at.now) (expr_of e.now) state) }
{
    let Some(a) = read(alloc, &state, at, state.env())? else {
        return Ok(Went::Fails { kind: Kind::Term });
    };
    let Some(v) = read(alloc, &state, e, state.env())? else {
        return Ok(Went::Fails { kind: Kind::Term });
    };
    match cell_at(alloc, &state, Rung::Plain, &a)? {
        Some(c) => written(alloc, state, c, v),
        None => Ok(Went::Fails { kind: Kind::Points }),
    }
}

/// Gives the cell at an address back, of which all shares have to be owned.
#[tactic(auto, using(crate::proofs::AccessesLemmas::free_found, crate::proofs::AccessesLemmas::free_none, crate::proofs::AccessesLemmas::free_wide, crate::proofs::AccessesLemmas::points_found))]
pub fn free(alloc: Global, state: State, at: &Expr) -> Result<Went, AllocError>
    ensures { IfOk result (λ went. branches went ≡ free (expr_of at.now) state) }
{
    let Some(a) = read(alloc, &state, at, state.env())? else {
        return Ok(Went::Fails { kind: Kind::Term });
    };
    match cell_at(alloc, &state, Rung::Plain, &a)? {
        Some(c) => freed(alloc, state, c),
        None => Ok(Went::Fails { kind: Kind::Points }),
    }
}

/// A cell of which all shares are owned gets a value.
fn written(alloc: Global, state: State, c: FoundCell, v: Lin) -> Result<Went, AllocError>
    requires { IsPoints Plain c.number state.chunks }
    ensures { IfOk result (λ went. branches went ≡ written c v state) }
{
    let full = constant(alloc, FULL)?;
    if !state.proves_equal(&c.share, &full) {
        return Ok(Went::Fails { kind: Kind::Share });
    }
    let mut state = state;
    state.put(
        alloc,
        c.number,
        Chunk::Points {
            rung: Rung::Plain,
            at: c.at,
            share: c.share,
            value: Some(v),
        },
    )?;
    Ok(Went::Goes { state })
}

/// A cell of which all shares are owned goes.
fn freed(alloc: Global, state: State, c: FoundCell) -> Result<Went, AllocError>
    requires { IsPoints Plain c.number state.chunks }
    ensures { IfOk result (λ went. branches went ≡ freed c state) }
{
    let all = constant(alloc, FULL)?;
    if !state.proves_equal(&c.share, &all) {
        return Ok(Went::Fails { kind: Kind::Share });
    }
    let mut state = state;
    let _chunk = state.take(c.number);
    Ok(Went::Goes { state })
}
