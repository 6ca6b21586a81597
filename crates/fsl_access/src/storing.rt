//! The rule of atomic stores.
ghost use Rattle.std.specs.Prelude.{◌≡◌, IfOk};
ghost use Rattle.fsl_core.specs.logic.Terms.{expr_of};
ghost use Rattle.fsl_core.specs.logic.Assertions.{asrt_of};
ghost use Rattle.fsl_core.specs.logic.Locations.{setting_of};
ghost use Rattle.fsl_core.specs.logic.Accesses.{store_atomic, store};
ghost use Rattle.fsl_asrt.specs.Branch.{branches};
ghost use Rattle.fsl_chunk.specs.Fits.{leave_of};
ghost use Rattle.fsl_access.specs.Storing.{written_under};

use crate::accesses::store_na;
use crate::branches::{failing, listed};
use crate::initial::init_on_each;
use crate::location::writable_at;
use crate::modes::giving;
use crate::pieces::consume_parts;
use fsl_asrt::{Branch, read};
use fsl_base::List;
use fsl_chunk::{Leave, State};
use fsl_core::{Expr, Kind, Mode, Program, Rung};
use fsl_lin::Lin;
use std::alloc::{AllocError, Global};

/// A store in any mode.
pub fn store(
    alloc: Global,
    p: &Program,
    state: State,
    mode: Mode,
    at: &Expr,
    e: &Expr,
) -> Result<List<Branch>, AllocError>
    ensures { IfOk result (λ bs. branches bs ≡ store (setting_of asrt_of p.now) mode (expr_of at.now) (expr_of e.now) state) }
{
    match mode {
        Mode::Na => {
            let came = store_na(alloc, state, at, e)?;
            listed(alloc, came)
        }
        Mode::Rlx | Mode::Acq | Mode::Rel | Mode::AcqRel => store_atomic(
            alloc, p, state, mode, at, e,
        ),
    }
}

/// An atomic store. All parts of the location's invariant at the value are given away.
#[tactic(auto, using(crate::proofs::StoringLemmas::store_wide, crate::proofs::StoringLemmas::value_wide))]
fn store_atomic(
    alloc: Global,
    p: &Program,
    state: State,
    mode: Mode,
    at: &Expr,
    e: &Expr,
) -> Result<List<Branch>, AllocError>
    ensures { IfOk result (λ bs. branches bs ≡ store_atomic (setting_of asrt_of p.now) mode (expr_of at.now) (expr_of e.now) state) }
{
    let Some(a) = read(alloc, &state, at, state.env())? else {
        return failing(alloc, Kind::Term);
    };
    let Some(v) = read(alloc, &state, e, state.env())? else {
        return failing(alloc, Kind::Term);
    };
    match writable_at(alloc, &state, &a)? {
        Some(l) => write(alloc, p, state, giving(mode), &a, &v, &l),
        None => failing(alloc, Kind::Rel),
    }
}

/// The parts of the invariant are given away, and the location has been written.
fn write(
    alloc: Global,
    p: &Program,
    state: State,
    rung: Rung,
    at: &Lin,
    v: &Lin,
    l: &Leave,
) -> Result<List<Branch>, AllocError>
    ensures { IfOk result (λ bs. branches bs ≡ written_under (setting_of asrt_of p.now) rung at.now v.now (leave_of l.now) state) }
{
    let given = consume_parts(alloc, p, state, rung, l, v)?;
    init_on_each(alloc, given, Rung::Plain, at)
}
