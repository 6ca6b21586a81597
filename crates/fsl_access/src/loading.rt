//! The rule of atomic loads.
ghost use Rattle.std.specs.Prelude.{◌≡◌, ◌∷◌, ◌++◌, [], false, Some, IfOk, slice_get};
ghost use Rattle.fsl_core.specs.declared.chunk.Chunk.TheVariants as chunk;
ghost use Rattle.std.specs.Option.{option_map};
ghost use Rattle.fsl_core.specs.logic.States.{followed};
ghost use Rattle.fsl_core.specs.logic.Terms.{expr_of};
ghost use Rattle.fsl_core.specs.logic.Assertions.{asrt_of};
ghost use Rattle.fsl_core.specs.logic.Locations.{setting_of};
ghost use Rattle.fsl_core.specs.logic.Accesses.{is_excluded, gain, gain_by, gain_each, load_atomic, load};
ghost use Rattle.fsl_chunk.specs.Kind.{kind_of};
ghost use Rattle.fsl_chunk.specs.declared.kind.ChunkKind.TheVariants as chunk_kind;
ghost use Rattle.fsl_asrt.specs.Branch.{branches, decided as decided_list};
ghost use Rattle.fsl_access.specs.Permissions.{permission_of};
ghost use Rattle.fsl_access.specs.Loading.{loaded, gained_at};

use crate::accesses::load_na;
use crate::branches::{failing, going, listed, set_on_each};
use crate::initial::is_initial;
use crate::modes::gaining;
use crate::permissions::{Permission, permission_in, permissions};
use crate::pieces::produce_part;
use fsl_asrt::{Branch, Decided, decide, read};
use fsl_base::{List, TryClone};
use fsl_chunk::{Made, State};
use fsl_core::{Chunk, CmpOp, Expr, Kind, Mode, Program, Rung};
use fsl_lin::Lin;
use std::alloc::{AllocError, Global};

/// A load in any mode.
pub fn load(
    alloc: Global,
    p: &Program,
    state: State,
    slot: u32,
    mode: Mode,
    at: &Expr,
) -> Result<List<Branch>, AllocError>
    ensures { IfOk result (λ bs. branches bs ≡ load (setting_of asrt_of p.now) slot mode (expr_of at.now) state) }
{
    match mode {
        Mode::Na => {
            let came = load_na(alloc, state, slot, at)?;
            listed(alloc, came)
        }
        Mode::Rlx | Mode::Acq | Mode::Rel | Mode::AcqRel => load_atomic(
            alloc, p, state, slot, mode, at,
        ),
    }
}

/// An atomic load. Its value is a new symbol; what the permissions for the location give at it is gained.
#[tactic(auto, using(crate::proofs::LoadingLemmas::load_wide, crate::proofs::LoadingLemmas::load_none, crate::proofs::LoadingLemmas::load_made, crate::proofs::LoadingLemmas::load_full))]
fn load_atomic(
    alloc: Global,
    p: &Program,
    state: State,
    slot: u32,
    mode: Mode,
    at: &Expr,
) -> Result<List<Branch>, AllocError>
    ensures { IfOk result (λ bs. branches bs ≡ load_atomic (setting_of asrt_of p.now) slot mode (expr_of at.now) state) }
{
    let Some(a) = read(alloc, &state, at, state.env())? else {
        return failing(alloc, Kind::Term);
    };
    if !is_initial(&state, Rung::Plain, &a) {
        return failing(alloc, Kind::Init);
    }
    match state.new_symbol(alloc)? {
        Made::Goes { state, symbol } => {
            loaded(alloc, p, state, slot, gaining(mode), &a, &symbol)
        }
        Made::Fails { kind } => failing(alloc, kind),
    }
}

/// A value was read: what it gives is gained, and a variable is set to it.
fn loaded(
    alloc: Global,
    p: &Program,
    state: State,
    slot: u32,
    rung: Rung,
    at: &Lin,
    v: &Lin,
) -> Result<List<Branch>, AllocError>
    ensures { IfOk result (λ bs. branches bs ≡ loaded (setting_of asrt_of p.now) slot rung at.now v.now state) }
{
    let places = permissions(alloc, &state, at)?;
    let gained = gain_each(alloc, p, state, rung, at, v, places.as_slice())?;
    set_on_each(alloc, gained, slot, v)
}

/// What the permissions at these places give is gained, one after the other.
#[tactic(auto, using(crate::proofs::LoadingLemmas::gains_first))]
fn gain_each(
    alloc: Global,
    p: &Program,
    state: State,
    rung: Rung,
    at: &Lin,
    v: &Lin,
    places: &[u32],
) -> Result<List<Branch>, AllocError>
    ensures { IfOk result (λ bs. branches bs ≡ gain_each (setting_of asrt_of p.now) rung at.now v.now places.now state) }
{
    let mut before = going(alloc, state)?;
    for place in places {
        before = gain_on_each(alloc, p, before, rung, at, v, *place)?;
    }
    Ok(before)
}

/// On each branch what stands at a place gives is gained.
fn gain_on_each(
    alloc: Global,
    p: &Program,
    before: List<Branch>,
    rung: Rung,
    at: &Lin,
    v: &Lin,
    place: u32,
) -> Result<List<Branch>, AllocError>
    ensures { IfOk result (λ bs. branches bs ≡ followed (branches before) (λ _. gained_at (setting_of asrt_of p.now) rung at.now v.now place)) }
{
    let mut out = List::new(alloc);
    for branch in before.into_vec() {
        match branch {
            Branch::Goes { state } => {
                let more = gain_at(alloc, p, state, rung, at, v, place)?;
                out.append(more)?;
            }
            Branch::Fails { kind } => out.push(Branch::Fails { kind })?,
        }
    }
    Ok(out)
}

/// What the permission at a place gives is gained, where one for the location stands there now.
fn gain_at(
    alloc: Global,
    p: &Program,
    state: State,
    rung: Rung,
    at: &Lin,
    v: &Lin,
    place: u32,
) -> Result<List<Branch>, AllocError>
    ensures { IfOk result (λ bs. branches bs ≡ gained_at (setting_of asrt_of p.now) rung at.now v.now place state) }
{
    match permission_in(alloc, &state, at, place)? {
        Some(x) => gain_by(alloc, p, state, rung, v, place, &x),
        None => going(alloc, state),
    }
}

/// What a permission gives is gained on each branch on which the value wasn't read before.
fn gain_by(
    alloc: Global,
    p: &Program,
    state: State,
    rung: Rung,
    v: &Lin,
    place: u32,
    x: &Permission,
) -> Result<List<Branch>, AllocError>
    requires place { option_map kind_of (slice_get state.chunks place) ≡ Some chunk_kind.Acq }
    ensures { IfOk result (λ bs. branches bs ≡ gain_by (setting_of asrt_of p.now) rung v.now place (Some (permission_of x.now)) state) }
{
    let sides = is_excluded(alloc, state, v, x.out.as_slice())?;
    let mut out = List::new(alloc);
    for side in sides.into_vec() {
        match side {
            Decided::Goes { state, holds: true } => out.push(Branch::Goes { state })?,
            Decided::Goes {
                state,
                holds: false,
            } => {
                let more = gain(alloc, p, state, rung, v, place, x)?;
                out.append(more)?;
            }
            Decided::Fails { kind } => out.push(Branch::Fails { kind })?,
        }
    }
    Ok(out)
}

/// Whether a value was read before. Those behind the one that it is are not asked.
fn is_excluded(
    alloc: Global,
    state: State,
    v: &Lin,
    read: &[Lin],
) -> Result<List<Decided>, AllocError>
    ensures { IfOk result (λ ds. decided_list ds ≡ is_excluded v.now read.now state) }
{
    let mut out = List::new(alloc);
    let Some((first, rest)) = read.split_first() else {
        out.push(Decided::Goes {
            state,
            holds: false,
        })?;
        return Ok(out);
    };
    let sides = decide(alloc, state, CmpOp::Eq, v, first)?;
    for side in sides.into_vec() {
        match side {
            Decided::Goes { state, holds: true } => out.push(Decided::Goes { state, holds: true })?,
            Decided::Goes {
                state,
                holds: false,
            } => {
                let more = is_excluded(alloc, state, v, rest)?;
                out.append(more)?;
            }
            Decided::Fails { kind } => out.push(Decided::Fails { kind })?,
        }
    }
    Ok(out)
}

/// The value is excluded from now on, and its part of the invariant is gained.
fn gain(
    alloc: Global,
    p: &Program,
    state: State,
    rung: Rung,
    v: &Lin,
    place: u32,
    x: &Permission,
) -> Result<List<Branch>, AllocError>
    requires place { option_map kind_of (slice_get state.chunks place) ≡ Some chunk_kind.Acq }
    ensures { IfOk result (λ bs. branches bs ≡ gain (setting_of asrt_of p.now) rung v.now place (permission_of x.now) false state) }
{
    let mut state = state;
    let chunk = with_read(alloc, x, v)?;
    state.put(alloc, place, chunk)?;
    produce_part(alloc, p, state, rung, &x.location, x.part, v)
}

/// A permission from which one more value is excluded.
fn with_read(alloc: Global, x: &Permission, v: &Lin) -> Result<Chunk, AllocError>
    ensures { IfOk result (λ c. c ≡ chunk.Acq x.now.location.at x.now.location.inv x.now.location.args x.now.part (x.now.out ++ v.now ∷ [])) }
{
    let out = appended(alloc, &x.out, v)?;
    let at = x.location.at.try_clone(alloc)?;
    let args = x.location.args.try_clone(alloc)?;
    Ok(Chunk::Acq {
        at,
        inv: x.location.inv,
        args,
        part: x.part,
        out,
    })
}

/// Values, and one more behind them.
fn appended(alloc: Global, values: &List<Lin>, v: &Lin) -> Result<List<Lin>, AllocError>
    ensures { IfOk result (λ all. all ≡ values.now ++ v.now ∷ []) }
{
    let mut all = values.try_clone(alloc)?;
    all.push(v.try_clone(alloc)?)?;
    Ok(all)
}
