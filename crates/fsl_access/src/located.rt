//! The rule of allocations of atomic locations.
ghost use Rattle.std.specs.Prelude.{◌≡◌, [], map, IfOk};
ghost use Rattle.fsl_core.specs.declared.chunk.Chunk.TheVariants as chunk;
ghost use Rattle.fsl_core.specs.logic.Terms.{expr_of};
ghost use Rattle.fsl_core.specs.logic.Producing.{inst_of};
ghost use Rattle.fsl_core.specs.logic.Assertions.{asrt_of};
ghost use Rattle.fsl_core.specs.logic.Locations.{setting_of};
ghost use Rattle.fsl_core.specs.logic.Chunks.{add};
ghost use Rattle.fsl_core.specs.logic.Accesses.{alloc_at, add_leave, add_permissions};
ghost use Rattle.fsl_chunk.specs.Went.{branches};
ghost use Rattle.fsl_chunk.specs.Fits.{leave_of};
ghost use Rattle.fsl_access.specs.Located.{new_location, based, located, with_leave};

use crate::accesses::at_least_one;
use crate::pieces::invariant;
use fsl_asrt::all_terms;
use fsl_base::{List, TryClone};
use fsl_chunk::{Leave, Made, State, Went};
use fsl_core::{Asrt, Chunk, Inst, Kind, Program};
use fsl_lin::Lin;
use std::alloc::{AllocError, Global};

/// A location is allocated with its invariant, for read-modify-writes where `rmw` is set. A variable is set to its
/// address, a new symbol that is at least 1.
#[tactic(auto, using(crate::proofs::LocatedLemmas::not_located))]
pub fn alloc_at(
    alloc: Global,
    p: &Program,
    state: State,
    slot: u32,
    rmw: bool,
    inst: &Inst,
) -> Result<Went, AllocError>
    ensures { IfOk result (λ went. branches went ≡ alloc_at (setting_of asrt_of p.now) slot rmw (inst_of expr_of inst.now) state) }
{
    match all_terms(alloc, &state, inst.args.as_slice(), state.env())? {
        Some(args) => new_location(alloc, p, state, slot, rmw, inst.inv, args),
        None => Ok(Went::Fails { kind: Kind::Term }),
    }
}

/// A location is allocated with its invariant, whose arguments are known.
#[tactic(auto, using(crate::proofs::LocatedLemmas::location_goes, crate::proofs::LocatedLemmas::location_fails))]
fn new_location(
    alloc: Global,
    p: &Program,
    state: State,
    slot: u32,
    rmw: bool,
    inv: u32,
    args: List<Lin>,
) -> Result<Went, AllocError>
    ensures { IfOk result (λ went. branches went ≡ new_location (setting_of asrt_of p.now) slot rmw inv args state) }
{
    match state.new_symbol(alloc)? {
        Made::Goes { state, symbol } => {
            let l = Leave {
                at: symbol,
                inv,
                args,
            };
            based(alloc, p, state, slot, rmw, l)
        }
        Made::Fails { kind } => Ok(Went::Fails { kind }),
    }
}

/// An address is at least 1, and its location may be used.
fn based(
    alloc: Global,
    p: &Program,
    state: State,
    slot: u32,
    rmw: bool,
    l: Leave,
) -> Result<Went, AllocError>
    ensures { IfOk result (λ went. branches went ≡ based (setting_of asrt_of p.now) slot rmw (leave_of l) state) }
{
    match at_least_one(alloc, state, &l.at)? {
        Went::Goes { state } => located(alloc, p, state, slot, rmw, l),
        Went::Infeasible => Ok(Went::Infeasible),
        Went::Fails { kind } => Ok(Went::Fails { kind }),
    }
}

/// A location may be written, and what else its use asks for, and a variable is set to its address.
fn located(
    alloc: Global,
    p: &Program,
    state: State,
    slot: u32,
    rmw: bool,
    l: Leave,
) -> Result<Went, AllocError>
    ensures { IfOk result (λ went. branches went ≡ located (setting_of asrt_of p.now) slot rmw (leave_of l) state) }
{
    let chunk = Chunk::Rel {
        at: l.at.try_clone(alloc)?,
        inv: l.inv,
        args: l.args.try_clone(alloc)?,
    };
    match state.add(alloc, chunk)? {
        Went::Goes { state } => with_leave(alloc, p, state, slot, rmw, l),
        Went::Infeasible => Ok(Went::Infeasible),
        Went::Fails { kind } => Ok(Went::Fails { kind }),
    }
}

/// A location that may be written gets what else its use asks for, and a variable is set to its address.
fn with_leave(
    alloc: Global,
    p: &Program,
    state: State,
    slot: u32,
    rmw: bool,
    l: Leave,
) -> Result<Went, AllocError>
    ensures { IfOk result (λ went. branches went ≡ with_leave (setting_of asrt_of p.now) slot rmw (leave_of l) state) }
{
    match add_leave(alloc, p, state, rmw, &l)? {
        Went::Goes { mut state } => {
            state.set(alloc, slot, l.at)?;
            Ok(Went::Goes { state })
        }
        Went::Infeasible => Ok(Went::Infeasible),
        Went::Fails { kind } => Ok(Went::Fails { kind }),
    }
}

/// What may be done with a location besides writing it.
fn add_leave(
    alloc: Global,
    p: &Program,
    state: State,
    rmw: bool,
    l: &Leave,
) -> Result<Went, AllocError>
    ensures { IfOk result (λ went. branches went ≡ add_leave (setting_of asrt_of p.now) rmw (leave_of l.now) state) }
{
    if rmw {
        return add_update(alloc, state, l);
    }
    match invariant(p, l.inv) {
        Some(inv) => add_permissions(alloc, state, l, inv.parts.as_slice()),
        None => Ok(Went::Goes { state }),
    }
}

/// Leave to read-modify-write a location.
fn add_update(alloc: Global, state: State, l: &Leave) -> Result<Went, AllocError>
    ensures { IfOk result (λ went. branches went ≡ add (chunk.RmwAcq l.now.at l.now.inv l.now.args) state) }
{
    let chunk = Chunk::RmwAcq {
        at: l.at.try_clone(alloc)?,
        inv: l.inv,
        args: l.args.try_clone(alloc)?,
    };
    state.add(alloc, chunk)
}

/// Leave to acquire each part of an invariant.
#[tactic(auto, using(crate::proofs::LocatedLemmas::permissions_more, crate::proofs::LocatedLemmas::permissions_fail, crate::proofs::LocatedLemmas::permissions_end, crate::proofs::LocatedLemmas::one_longer, crate::proofs::LocatedLemmas::adds_some))]
fn add_permissions(
    alloc: Global,
    state: State,
    l: &Leave,
    parts: &[Asrt],
) -> Result<Went, AllocError>
    ensures { IfOk result (λ went. branches went ≡ add_permissions (leave_of l.now) 0 (map asrt_of parts.now) state) }
{
    let mut state = state;
    let mut part = 0u32;
    for _asrt in parts {
        state = match add_permission(alloc, state, l, part)? {
            Went::Goes { state } => state,
            Went::Infeasible => return Ok(Went::Infeasible),
            Went::Fails { kind } => return Ok(Went::Fails { kind }),
        };
        part += 1;
    }
    Ok(Went::Goes { state })
}

/// Leave to acquire one part.
fn add_permission(alloc: Global, state: State, l: &Leave, part: u32) -> Result<Went, AllocError>
    ensures { IfOk result (λ went. branches went ≡ add (chunk.Acq l.now.at l.now.inv l.now.args part []) state) }
{
    let chunk = Chunk::Acq {
        at: l.at.try_clone(alloc)?,
        inv: l.inv,
        args: l.args.try_clone(alloc)?,
        part,
        out: List::new(alloc),
    };
    state.add(alloc, chunk)
}
