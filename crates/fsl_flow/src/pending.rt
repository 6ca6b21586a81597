//! What waits to be followed: the branches of rules, each with what is left of its path.
ghost use Rattle.std.specs.Prelude.{◌≡◌, map, IfOk};
ghost use Rattle.fsl_chunk.specs.Went as chunks;
ghost use Rattle.fsl_asrt.specs.Branch.{branches, decided};
ghost use Rattle.fsl_flow.specs.Continuation.{continuation_of};
ghost use Rattle.fsl_flow.specs.Pending.{item_of};
ghost use Rattle.fsl_flow.specs.Next.{goes_to, goes_to_side, ends_at};
ghost use Rattle.fsl_flow.specs.Statements.{branches_came};

use crate::continuation::{Continuation, Frame};
use crate::statements::Came;
use fsl_asrt::{Branch, Decided};
use fsl_base::{List, Span};
use fsl_chunk::{State, Went};
use fsl_core::{Kind, Stmt};
use std::alloc::{AllocError, Global};

/// What waits to be followed.
#[derive(Drop)]
pub enum Pending<'a> {
    /// A state, and what is left of its path.
    Goes {
        state: State,
        continuation: Continuation<'a>,
    },
    /// A path that ends at this place.
    Ends {
        at: Span,
    },
    /// A path that fails at this place.
    Fails {
        at: Span,
        kind: Kind,
    },
}

/// What a rule goes on with.
pub fn go_on<'a>(
    alloc: Global,
    at: Span,
    came: Came,
    continuation: Continuation<'a>,
) -> Result<List<Pending<'a>>, AllocError>
    ensures { IfOk result (λ ps. map item_of ps ≡ goes_to at (branches_came came) (continuation_of continuation.entry)) }
{
    match came {
        Came::One(went) => one(alloc, at, went, continuation),
        Came::Several(branches) => each(alloc, at, branches, &continuation),
    }
}

/// What a rule with at most one branch goes on with.
fn one<'a>(
    alloc: Global,
    at: Span,
    went: Went,
    continuation: Continuation<'a>,
) -> Result<List<Pending<'a>>, AllocError>
    ensures { IfOk result (λ ps. map item_of ps ≡ goes_to at (chunks.branches went) (continuation_of continuation.entry)) }
{
    let mut out = List::new(alloc);
    match went {
        Went::Goes { state } => out.push(Pending::Goes {
            state,
            continuation,
        })?,
        Went::Infeasible => {}
        Went::Fails { kind } => out.push(Pending::Fails { at, kind })?,
    }
    Ok(out)
}

/// What the branches of a rule go on with.
pub fn each<'a>(
    alloc: Global,
    at: Span,
    going: List<Branch>,
    continuation: &Continuation<'a>,
) -> Result<List<Pending<'a>>, AllocError>
    ensures { IfOk result (λ ps. map item_of ps ≡ goes_to at (branches going) (continuation_of continuation.now)) }
{
    let mut out = List::new(alloc);
    for branch in going.into_vec() {
        match branch {
            Branch::Goes { state } => {
                let continuation = continuation.copy(alloc)?;
                out.push(Pending::Goes {
                    state,
                    continuation,
                })?;
            }
            Branch::Fails { kind } => out.push(Pending::Fails { at, kind })?,
        }
    }
    Ok(out)
}

/// What the branches of a decision go on with: each goes into one of two blocks.
pub fn each_side<'a>(
    alloc: Global,
    at: Span,
    sides: List<Decided>,
    yes: &'a [Stmt],
    no: &'a [Stmt],
    declared: u64,
    continuation: &Continuation<'a>,
) -> Result<List<Pending<'a>>, AllocError>
    ensures { IfOk result (λ ps. map item_of ps ≡ goes_to_side at (decided sides) yes.now no.now declared (continuation_of continuation.now)) }
{
    let mut out = List::new(alloc);
    for side in sides.into_vec() {
        match side {
            Decided::Goes { state, holds } => {
                let stmts = if holds { yes } else { no };
                let continuation = continuation
                    .copy(alloc)?
                    .with(Frame::Block { stmts, declared })?;
                out.push(Pending::Goes {
                    state,
                    continuation,
                })?;
            }
            Decided::Fails { kind } => out.push(Pending::Fails { at, kind })?,
        }
    }
    Ok(out)
}

/// The ends of the branches of a rule.
pub fn each_end<'a>(
    alloc: Global,
    at: Span,
    going: List<Branch>,
) -> Result<List<Pending<'a>>, AllocError>
    ensures { IfOk result (λ ps. map item_of ps ≡ ends_at at (branches going)) }
{
    let mut out = List::new(alloc);
    for branch in going.into_vec() {
        match branch {
            Branch::Goes { state: _over } => out.push(Pending::Ends { at })?,
            Branch::Fails { kind } => out.push(Pending::Fails { at, kind })?,
        }
    }
    Ok(out)
}
