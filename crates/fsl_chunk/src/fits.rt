//! Whether a chunk is what is sought.
ghost use Rattle.std.specs.Prelude.{◌≡◌, ◌==◌, ◌&&◌, false, pos, is_some};
ghost use Rattle.std.specs.List.{list_any};
ghost use Rattle.fsl_lin.specs.Facts.{absurd_facts};
ghost use Rattle.fsl_core.specs.logic.Chunks.{same_rung, cell_at, enough_at, init_at, leave, all_equal, same_leave, rel_at, rmw_at, rel_of, rmw_of, tokens_of, authority_of};
ghost use Rattle.fsl_core.specs.logic.Consuming.{excludes_no_more, permission_of};
ghost use Rattle.fsl_core.specs.logic.Deciding.{proves_equal, proves_at_most};
ghost use Rattle.fsl_chunk.specs.Fits.{leave_of, permission, fits, kind_sought, rung_sought};

use crate::kind::{ChunkKind, same_rung};
use crate::leave::Leave;
use crate::want::Want;
use fsl_base::List;
use fsl_core::{Chunk, Rung};
use fsl_lin::Lin;
use fsl_pure::Pure;

/// The kind of the chunks that can fit.
pub fn kind_sought(want: &Want<'_, '_>) -> ChunkKind
    ensures { result ≡ kind_sought want.now }
{
    match *want {
        Want::Points { .. } | Want::Enough { .. } => ChunkKind::Points,
        Want::Init { .. } => ChunkKind::Init,
        Want::Rel { .. } | Want::RelOf { .. } => ChunkKind::Rel,
        Want::AcqOf { .. } => ChunkKind::Acq,
        Want::RmwAcq { .. } | Want::RmwOf { .. } => ChunkKind::RmwAcq,
        Want::Tok { .. } => ChunkKind::Tok,
        Want::Auth { .. } => ChunkKind::Auth,
    }
}

/// The rung of the chunks that can fit.
pub fn rung_sought(want: &Want<'_, '_>) -> Rung
    ensures { result ≡ rung_sought want.now }
{
    match *want {
        Want::Points { rung, .. } | Want::Enough { rung, .. } | Want::Init { rung, .. } => rung,
        Want::Rel { .. }
        | Want::RmwAcq { .. }
        | Want::RelOf { .. }
        | Want::RmwOf { .. }
        | Want::AcqOf { .. }
        | Want::Tok { .. }
        | Want::Auth { .. } => Rung::Plain,
    }
}

/// Whether a chunk fits.
pub fn fits(pure: &Pure, want: &Want<'_, '_>, chunk: &Chunk) -> bool
    requires { absurd_facts pure.now.facts ≡ false }
    ensures { result ≡ fits want.now pure.now.facts chunk.now }
{
    match *want {
        Want::Points { rung, at } => is_cell(pure, rung, at, chunk),
        Want::Enough { rung, at, share } => has_enough(pure, rung, at, share, chunk),
        Want::Init { rung, at } => is_init(pure, rung, at, chunk),
        Want::Rel { at } => is_rel(pure, at, chunk),
        Want::RmwAcq { at } => is_rmw(pure, at, chunk),
        Want::RelOf { leave } => is_rel_of(pure, leave, chunk),
        Want::RmwOf { leave } => is_rmw_of(pure, leave, chunk),
        Want::AcqOf { leave, part, out } => is_permission(pure, leave, part, out, chunk),
        Want::Tok { bank } => is_tokens(pure, bank, chunk),
        Want::Auth { bank } => is_authority(pure, bank, chunk),
    }
}

/// Whether a chunk is a share of the cell at an address.
fn is_cell(pure: &Pure, rung: Rung, at: &Lin, chunk: &Chunk) -> bool
    requires { absurd_facts pure.now.facts ≡ false }
    ensures { result ≡ is_some (cell_at rung at.now pure.now.facts chunk.now) }
{
    match chunk {
        Chunk::Points { rung: r, at: a, .. } => stands_at(pure, *r, a, rung, at),
        _ => false,
    }
}

/// Whether a chunk is a share of the cell at an address, and at least this share.
fn has_enough(pure: &Pure, rung: Rung, at: &Lin, share: &Lin, chunk: &Chunk) -> bool
    requires { absurd_facts pure.now.facts ≡ false }
    ensures { result ≡ is_some (enough_at rung at.now share.now pure.now.facts chunk.now) }
{
    match chunk {
        Chunk::Points {
            rung: r,
            at: a,
            share: held,
            ..
        } => holds(pure, *r, a, held, rung, at, share),
        _ => false,
    }
}

/// Whether a chunk says that the location at an address has been written.
fn is_init(pure: &Pure, rung: Rung, at: &Lin, chunk: &Chunk) -> bool
    requires { absurd_facts pure.now.facts ≡ false }
    ensures { result ≡ is_some (init_at rung at.now pure.now.facts chunk.now) }
{
    match chunk {
        Chunk::Init { rung: r, at: a } => stands_at(pure, *r, a, rung, at),
        _ => false,
    }
}

/// Whether a chunk is leave to write the location at an address.
fn is_rel(pure: &Pure, at: &Lin, chunk: &Chunk) -> bool
    requires { absurd_facts pure.now.facts ≡ false }
    ensures { result ≡ is_some (rel_at at.now pure.now.facts chunk.now) }
{
    match chunk {
        Chunk::Rel { at: a, .. } => equal(pure, a, at),
        _ => false,
    }
}

/// Whether a chunk is leave to read-modify-write the location at an address.
fn is_rmw(pure: &Pure, at: &Lin, chunk: &Chunk) -> bool
    requires { absurd_facts pure.now.facts ≡ false }
    ensures { result ≡ is_some (rmw_at at.now pure.now.facts chunk.now) }
{
    match chunk {
        Chunk::RmwAcq { at: a, .. } => equal(pure, a, at),
        _ => false,
    }
}

/// Whether a chunk is this leave to write.
fn is_rel_of(pure: &Pure, leave: &Leave, chunk: &Chunk) -> bool
    requires { absurd_facts pure.now.facts ≡ false }
    ensures { result ≡ is_some (rel_of (leave_of leave.now) pure.now.facts chunk.now) }
{
    match chunk {
        Chunk::Rel { at, inv, args } => same_leave(pure, at, *inv, args, leave),
        _ => false,
    }
}

/// Whether a chunk is this leave to read-modify-write.
fn is_rmw_of(pure: &Pure, leave: &Leave, chunk: &Chunk) -> bool
    requires { absurd_facts pure.now.facts ≡ false }
    ensures { result ≡ is_some (rmw_of (leave_of leave.now) pure.now.facts chunk.now) }
{
    match chunk {
        Chunk::RmwAcq { at, inv, args } => same_leave(pure, at, *inv, args, leave),
        _ => false,
    }
}

/// Whether a chunk is leave to acquire this part, and excludes no other values than these.
fn is_permission(pure: &Pure, leave: &Leave, part: u32, out: &List<Lin>, chunk: &Chunk) -> bool
    requires { absurd_facts pure.now.facts ≡ false }
    ensures { result ≡ is_some (permission_of (permission leave.now part out.now) pure.now.facts chunk.now) }
{
    match chunk {
        Chunk::Acq {
            at,
            inv,
            args,
            part: p,
            out: held,
        } => grants(pure, at, *inv, args, *p, held, leave, part, out),
        _ => false,
    }
}

/// Whether a chunk holds tokens of a bank.
fn is_tokens(pure: &Pure, bank: &Lin, chunk: &Chunk) -> bool
    requires { absurd_facts pure.now.facts ≡ false }
    ensures { result ≡ is_some (tokens_of bank.now pure.now.facts chunk.now) }
{
    match chunk {
        Chunk::Tok { bank: b, .. } => equal(pure, b, bank),
        _ => false,
    }
}

/// Whether a chunk is the authority over a bank.
fn is_authority(pure: &Pure, bank: &Lin, chunk: &Chunk) -> bool
    requires { absurd_facts pure.now.facts ≡ false }
    ensures { result ≡ is_some (authority_of bank.now pure.now.facts chunk.now) }
{
    match chunk {
        Chunk::Auth { bank: b, .. } => equal(pure, b, bank),
        _ => false,
    }
}

/// Whether a chunk of this rung and address stands at that rung and address.
fn stands_at(pure: &Pure, held: Rung, a: &Lin, rung: Rung, at: &Lin) -> bool
    requires { absurd_facts pure.now.facts ≡ false }
    ensures { result ≡ (same_rung held rung && proves_equal pure.now.facts a.now at.now) }
{
    same_rung(held, rung) && equal(pure, a, at)
}

/// Whether a cell of this rung and address stands there, with at least this share.
fn holds(pure: &Pure, held: Rung, a: &Lin, has: &Lin, rung: Rung, at: &Lin, share: &Lin) -> bool
    requires { absurd_facts pure.now.facts ≡ false }
    ensures { result ≡ (same_rung held rung && (proves_equal pure.now.facts a.now at.now && proves_at_most pure.now.facts share.now (pos 0) has.now)) }
{
    same_rung(held, rung) && equal(pure, a, at) && at_most(pure, share, has)
}

/// Whether leave to acquire this part, but for the values that it holds, is another such leave with these values.
fn grants(
    pure: &Pure,
    at: &Lin,
    inv: u32,
    args: &List<Lin>,
    held_part: u32,
    held: &List<Lin>,
    other: &Leave,
    part: u32,
    out: &List<Lin>,
) -> bool
    requires { absurd_facts pure.now.facts ≡ false }
    ensures { result ≡ (same_leave pure.now.facts (leave at.now inv args.now) (leave_of other.now) && (held_part == part && excludes_no_more pure.now.facts held.now out.now)) }
{
    same_leave(pure, at, inv, args, other)
        && held_part == part
        && excludes_no_more(pure, held.as_slice(), out.as_slice())
}

/// Whether leave of this location, invariant and arguments is another leave.
fn same_leave(pure: &Pure, at: &Lin, inv: u32, args: &List<Lin>, other: &Leave) -> bool
    requires { absurd_facts pure.now.facts ≡ false }
    ensures { result ≡ same_leave pure.now.facts (leave at.now inv args.now) (leave_of other.now) }
{
    equal(pure, at, &other.at)
        && inv == other.inv
        && all_equal(pure, args.as_slice(), other.args.as_slice())
}

/// Whether terms are proved equal, one by one.
fn all_equal(pure: &Pure, xs: &[Lin], ys: &[Lin]) -> bool
    requires { absurd_facts pure.now.facts ≡ false }
    ensures { result ≡ all_equal pure.now.facts xs.now ys.now }
{
    match (xs.split_first(), ys.split_first()) {
        (Some((x, xs)), Some((y, ys))) => equal(pure, x, y) && all_equal(pure, xs, ys),
        (None, None) => true,
        _ => false,
    }
}

/// Whether each term is proved equal to one of those that are written.
fn excludes_no_more(pure: &Pure, out: &[Lin], written: &[Lin]) -> bool
    requires { absurd_facts pure.now.facts ≡ false }
    ensures { result ≡ excludes_no_more pure.now.facts out.now written.now }
{
    match out.split_first() {
        Some((x, xs)) => is_among(pure, x, written) && excludes_no_more(pure, xs, written),
        None => true,
    }
}

/// Whether a term is proved equal to one of several.
fn is_among(pure: &Pure, x: &Lin, terms: &[Lin]) -> bool
    requires { absurd_facts pure.now.facts ≡ false }
    ensures { result ≡ list_any (λ y. proves_equal pure.now.facts x.now y) terms.now }
{
    match terms.split_first() {
        Some((y, ys)) => equal(pure, x, y) || is_among(pure, x, ys),
        None => false,
    }
}

/// Whether two terms are proved equal.
fn equal(pure: &Pure, a: &Lin, b: &Lin) -> bool
    requires { absurd_facts pure.now.facts ≡ false }
    ensures { result ≡ proves_equal pure.now.facts a.now b.now }
{
    pure.proves_eq(a, b)
}

/// Whether a term is proved at most another one.
fn at_most(pure: &Pure, a: &Lin, b: &Lin) -> bool
    requires { absurd_facts pure.now.facts ≡ false }
    ensures { result ≡ proves_at_most pure.now.facts a.now (pos 0) b.now }
{
    pure.proves_le(a, b, 0)
}
