//! Shares of cells that are added: a share joins the first chunk of its cell, or is a new chunk.
ghost use Rattle.std.specs.Prelude.{◌≡◌, pos, IfOk};
ghost use Rattle.fsl_core.specs.logic.Deciding.{assume_at_most};
ghost use Rattle.fsl_core.specs.logic.Joining.{full, assume_share, assume_same, known_of, add_cell};
ghost use Rattle.fsl_core.specs.declared.chunk.Chunk.TheVariants as chunk;
ghost use Rattle.fsl_chunk.specs.Went.{branches};
ghost use Rattle.fsl_asrt.specs.Cells.{IsPoints, joined_at, summed_at, valued_at, put_at};

use crate::cells::{FoundCell, cell_at};
use crate::terms::constant;
use fsl_chunk::{State, Went};
use fsl_core::{Chunk, Kind, Rung};
use fsl_lin::{Lin, LinFault};
use std::alloc::{AllocError, Global};

/// All shares of a cell: 2^63.
pub const FULL: i128 = 1 << 63;

/// Assumes that a share is at least 1 and at most all.
pub fn assume_share(alloc: Global, state: State, share: &Lin) -> Result<Went, AllocError>
    ensures { IfOk result (λ went. branches went ≡ assume_share share.now state) }
{
    let one = constant(alloc, 1)?;
    match state.assume_at_most(alloc, &one, 0, share)? {
        Went::Goes { state } => at_most_full(alloc, state, share),
        Went::Infeasible => Ok(Went::Infeasible),
        Went::Fails { kind } => Ok(Went::Fails { kind }),
    }
}

/// Assumes that a share is at most all.
fn at_most_full(alloc: Global, state: State, share: &Lin) -> Result<Went, AllocError>
    ensures { IfOk result (λ went. branches went ≡ assume_at_most share.now (pos 0) full state) }
{
    let full = constant(alloc, FULL)?;
    state.assume_at_most(alloc, share, 0, &full)
}

/// Adds a share of a cell, which was assumed to be one.
pub fn add_cell(
    alloc: Global,
    state: State,
    rung: Rung,
    at: Lin,
    share: Lin,
    value: Option<Lin>,
) -> Result<Went, AllocError>
    ensures { IfOk result (λ went. branches went ≡ add_cell rung (record { at = at; share = share; value = value }) state) }
{
    match cell_at(alloc, &state, rung, &at)? {
        Some(c) => join(alloc, state, c, rung, &share, value),
        None => state.add(
            alloc,
            Chunk::Points {
                rung,
                at,
                share,
                value,
            },
        ),
    }
}

/// A share joins the chunk of its cell.
fn join(
    alloc: Global,
    state: State,
    c: FoundCell,
    rung: Rung,
    share: &Lin,
    value: Option<Lin>,
) -> Result<Went, AllocError>
    requires { IsPoints rung c.number state.chunks }
    ensures { IfOk result (λ went. branches went ≡ joined_at rung c share.now value state) }
{
    match c.share.add(alloc, share) {
        Ok(sum) => join_sum(alloc, state, c, rung, sum, value),
        Err(LinFault::Wide) => Ok(Went::Fails { kind: Kind::Term }),
        Err(LinFault::NoMemory) => Err(AllocError),
    }
}

/// The chunk gets a share that is assumed to be at most all.
fn join_sum(
    alloc: Global,
    state: State,
    c: FoundCell,
    rung: Rung,
    sum: Lin,
    value: Option<Lin>,
) -> Result<Went, AllocError>
    requires { IsPoints rung c.number state.chunks }
    ensures { IfOk result (λ went. branches went ≡ summed_at rung c sum value state) }
{
    match at_most_full(alloc, state, &sum)? {
        Went::Goes { state } => join_values(alloc, state, c, rung, sum, value),
        Went::Infeasible => Ok(Went::Infeasible),
        Went::Fails { kind } => Ok(Went::Fails { kind }),
    }
}

/// The values are assumed to be equal where both are known.
fn join_values(
    alloc: Global,
    state: State,
    c: FoundCell,
    rung: Rung,
    sum: Lin,
    value: Option<Lin>,
) -> Result<Went, AllocError>
    requires { IsPoints rung c.number state.chunks }
    ensures { IfOk result (λ went. branches went ≡ valued_at rung c sum value state) }
{
    match assume_same(alloc, state, &c.value, &value)? {
        Went::Goes { state } => put_sum(alloc, state, c, rung, sum, value),
        Went::Infeasible => Ok(Went::Infeasible),
        Went::Fails { kind } => Ok(Went::Fails { kind }),
    }
}

/// Assumes that two values are equal where both are known.
fn assume_same(
    alloc: Global,
    state: State,
    a: &Option<Lin>,
    b: &Option<Lin>,
) -> Result<Went, AllocError>
    ensures { IfOk result (λ went. branches went ≡ assume_same a.now b.now state) }
{
    match (a, b) {
        (Some(a), Some(b)) => state.assume_equal(alloc, a, b),
        _ => Ok(Went::Goes { state }),
    }
}

/// Puts the sum in the place of the chunk, with the value that is known.
fn put_sum(
    alloc: Global,
    state: State,
    c: FoundCell,
    rung: Rung,
    sum: Lin,
    value: Option<Lin>,
) -> Result<Went, AllocError>
    requires { IsPoints rung c.number state.chunks }
    ensures { IfOk result (λ went. branches went ≡ put_at c.number (chunk.Points rung c.at sum (known_of c.value value)) state) }
{
    let FoundCell {
        number,
        at,
        value: known,
        ..
    } = c;
    let value = known_of(known, value);
    let mut state = state;
    state.put(
        alloc,
        number,
        Chunk::Points {
            rung,
            at,
            share: sum,
            value,
        },
    )?;
    Ok(Went::Goes { state })
}

/// The first value where it is known.
fn known_of(a: Option<Lin>, b: Option<Lin>) -> Option<Lin>
    ensures { result ≡ known_of a b }
{
    match a {
        Some(a) => Some(a),
        None => b,
    }
}
