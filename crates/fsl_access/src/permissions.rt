//! Permissions to acquire parts of the invariant of a location.
ghost use Rattle.std.specs.Prelude.{◌≡◌, IfOk, is_some};
ghost use Rattle.std.specs.Option.{option_map};
ghost use Rattle.fsl_core.specs.logic.Accesses.{permission_at, permission_in, permissions};
ghost use Rattle.fsl_access.specs.Permissions.{permission_of};

use fsl_base::{List, TryClone};
use fsl_chunk::{Leave, State};
use fsl_core::Chunk;
use fsl_lin::Lin;
use std::alloc::{AllocError, Global};

/// Leave to acquire one part of the invariant of a location, but for the values that were read already.
#[derive(Drop)]
pub struct Permission {
    pub location: Leave,
    pub part: u32,
    pub out: List<Lin>,
}

/// Whether a chunk is a permission for the location at an address.
fn is_permission(state: &State, at: &Lin, chunk: &Chunk) -> bool
    ensures { result ≡ is_some (permission_at at.now state.now.facts chunk.now) }
{
    match chunk {
        Chunk::Acq { at: a, .. } => state.proves_equal(a, at),
        _ => false,
    }
}

/// The numbers of the permissions for the location at an address, ascending.
#[tactic(auto, using(crate::proofs::PermissionsLemmas::places_end))]
pub fn permissions(alloc: Global, state: &State, at: &Lin) -> Result<List<u32>, AllocError>
    ensures { IfOk result (λ places. places ≡ permissions state.now.facts at.now 0 state.now.chunks) }
{
    let mut out = List::new(alloc);
    for number in 0..state.heap().len() {
        if is_permission(state, at, state.heap().at(number)) {
            out.push(number)?;
        }
    }
    Ok(out)
}

/// The permission that a chunk is for the location at an address, if it is one.
fn permission_at(
    alloc: Global,
    state: &State,
    at: &Lin,
    chunk: &Chunk,
) -> Result<Option<Permission>, AllocError>
    ensures { IfOk result (λ x. option_map permission_of x ≡ permission_at at.now state.now.facts chunk.now) }
{
    match chunk {
        Chunk::Acq {
            at: a,
            inv,
            args,
            part,
            out,
        } if state.proves_equal(a, at) => {
            let location = copied(alloc, a, *inv, args)?;
            let out = out.try_clone(alloc)?;
            Ok(Some(Permission {
                location,
                part: *part,
                out,
            }))
        }
        _ => Ok(None),
    }
}

/// A location with its invariant, copied.
fn copied(alloc: Global, at: &Lin, inv: u32, args: &List<Lin>) -> Result<Leave, AllocError>
    ensures { IfOk result (λ l. l ≡ record { at = at.now; inv = inv; args = args.now }) }
{
    let at = at.try_clone(alloc)?;
    let args = args.try_clone(alloc)?;
    Ok(Leave { at, inv, args })
}

/// The permission that stands at a number now, if there is one for the location at an address.
pub fn permission_in(
    alloc: Global,
    state: &State,
    at: &Lin,
    number: u32,
) -> Result<Option<Permission>, AllocError>
    ensures { IfOk result (λ x. option_map permission_of x ≡ permission_in at.now number state.now) }
{
    if number < state.heap().len() {
        permission_at(alloc, state, at, state.heap().at(number))
    } else {
        Ok(None)
    }
}
