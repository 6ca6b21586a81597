//! The sides of a comparison of two terms: one where its answer is proved, else one for each way that it can go.
ghost use Rattle.std.specs.Prelude.{◌≡◌, [], ◌∷◌, IfOk, filter};
ghost use Rattle.fsl_core.specs.logic.Deciding.{decide, decide_equal, decide_unequal, proves_apart, agrees, is_sure};
ghost use Rattle.fsl_lin.specs.Combination.{Combination};
ghost use Rattle.fsl_asrt.specs.Sides.{proved, sides_of, ordered};

use crate::given::{Given, Side};
use fsl_base::List;
use fsl_chunk::State;
use fsl_core::CmpOp;
use fsl_lin::Lin;
use std::alloc::{AllocError, Global};

/// Whether it is proved of two terms.
fn proves(state: &State, given: Given, a: &Lin, b: &Lin) -> bool
    ensures { result ≡ proved a.now b.now state.now.facts given }
{
    match given {
        Given::Nothing => true,
        Given::Equal => state.proves_equal(a, b),
        Given::Less => state.proves_at_most(a, 1, b),
        Given::AtMost => state.proves_at_most(a, 0, b),
        Given::Greater => state.proves_at_most(b, 1, a),
        Given::AtLeast => state.proves_at_most(b, 0, a),
    }
}

/// Whether one of two terms is proved to be less than the other.
fn apart(state: &State, a: &Lin, b: &Lin) -> bool
    ensures { result ≡ proves_apart state.now.facts a.now b.now }
{
    proves(state, Given::Less, a, b) || proves(state, Given::Greater, a, b)
}

fn side(holds: bool, given: Given) -> Side
    ensures { result ≡ record { holds = holds; given = given } }
{
    Side { holds, given }
}

fn one(alloc: Global, first: Side) -> Result<List<Side>, AllocError>
    ensures { IfOk result (λ sides. sides ≡ first ∷ []) }
{
    let mut sides = List::new(alloc);
    sides.push(first)?;
    Ok(sides)
}

fn two(alloc: Global, first: Side, second: Side) -> Result<List<Side>, AllocError>
    ensures { IfOk result (λ sides. sides ≡ first ∷ second ∷ []) }
{
    let mut sides = one(alloc, first)?;
    sides.push(second)?;
    Ok(sides)
}

fn three(alloc: Global, first: Side, second: Side, third: Side) -> Result<List<Side>, AllocError>
    ensures { IfOk result (λ sides. sides ≡ first ∷ second ∷ third ∷ []) }
{
    let mut sides = two(alloc, first, second)?;
    sides.push(third)?;
    Ok(sides)
}

/// The one side of an answer that is known.
pub fn known(alloc: Global, holds: bool) -> Result<List<Side>, AllocError>
    ensures { IfOk result (λ sides. sides ≡ record { holds = holds; given = Given.Nothing } ∷ []) }
{
    one(alloc, side(holds, Given::Nothing))
}

/// The sides of an order that holds by one fact, and doesn't by another.
fn ordered(
    alloc: Global,
    state: &State,
    so: Given,
    not_so: Given,
    a: &Lin,
    b: &Lin,
) -> Result<List<Side>, AllocError>
    ensures { IfOk result (λ sides. sides_of a.now b.now sides ≡ ordered so not_so a.now b.now state.now.facts) }
{
    if proves(state, so, a, b) {
        known(alloc, true)
    } else if proves(state, not_so, a, b) {
        known(alloc, false)
    } else {
        two(alloc, side(true, so), side(false, not_so))
    }
}

/// The sides of `==`.
fn equal(alloc: Global, state: &State, a: &Lin, b: &Lin) -> Result<List<Side>, AllocError>
    ensures { IfOk result (λ sides. sides_of a.now b.now sides ≡ decide_equal a.now b.now state.now.facts) }
{
    if proves(state, Given::Equal, a, b) {
        known(alloc, true)
    } else if apart(state, a, b) {
        known(alloc, false)
    } else {
        three(
            alloc,
            side(true, Given::Equal),
            side(false, Given::Less),
            side(false, Given::Greater),
        )
    }
}

/// The sides of `!=`.
fn unequal(alloc: Global, state: &State, a: &Lin, b: &Lin) -> Result<List<Side>, AllocError>
    ensures { IfOk result (λ sides. sides_of a.now b.now sides ≡ decide_unequal a.now b.now state.now.facts) }
{
    if proves(state, Given::Equal, a, b) {
        known(alloc, false)
    } else if apart(state, a, b) {
        known(alloc, true)
    } else {
        three(
            alloc,
            side(true, Given::Less),
            side(true, Given::Greater),
            side(false, Given::Equal),
        )
    }
}

/// The sides of a comparison, in order.
pub fn sides(
    alloc: Global,
    state: &State,
    op: CmpOp,
    a: &Lin,
    b: &Lin,
) -> Result<List<Side>, AllocError>
    ensures { IfOk result (λ sides. sides_of a.now b.now sides ≡ decide op a.now b.now state.now.facts) }
{
    match op {
        CmpOp::Eq => equal(alloc, state, a, b),
        CmpOp::Ne => unequal(alloc, state, a, b),
        CmpOp::Lt => ordered(alloc, state, Given::Less, Given::AtLeast, a, b),
        CmpOp::Le => ordered(alloc, state, Given::AtMost, Given::Greater, a, b),
        CmpOp::Gt => ordered(alloc, state, Given::Greater, Given::AtMost, a, b),
        CmpOp::Ge => ordered(alloc, state, Given::AtLeast, Given::Less, a, b),
    }
}

/// Whether a side has this answer.
fn agrees(answer: bool, holds: bool) -> bool
    ensures { result ≡ agrees answer holds }
{
    if answer { holds } else { !holds }
}

/// The sides with this answer alone.
pub fn agreeing(alloc: Global, answer: bool, sides: &[Side]) -> Result<List<Side>, AllocError>
    ensures { IfOk result (λ kept. kept ≡ filter (λ x. agrees answer x.holds) sides.now) }
{
    let mut kept = List::new(alloc);
    for side in sides {
        if agrees(answer, side.holds) {
            kept.push(*side)?;
        }
    }
    Ok(kept)
}

/// Whether the answer is known to be true.
pub fn is_sure(sides: &[Side]) -> bool
    ensures { (a : Combination) → (b : Combination) → result ≡ is_sure (sides_of a b sides.now) }
{
    match sides.split_first() {
        Some((first, rest)) => first.holds && rest.is_empty(),
        None => false,
    }
}
