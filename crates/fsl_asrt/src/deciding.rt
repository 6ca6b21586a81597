//! Comparisons and conditions, decided, assumed and demanded, branch by branch in order. Branches whose facts
//! contradict each other are left out.
ghost use Rattle.std.specs.Prelude.{◌≡◌, [], ◌∷◌, IfOk};
ghost use Rattle.fsl_core.specs.logic.States.{followed, done};
ghost use Rattle.fsl_core.specs.logic.Terms.{expr_of};
ghost use Rattle.fsl_core.specs.logic.Deciding.{decide, each_side, cond_of, decided, assume_cond, demand_cond};
ghost use Rattle.fsl_chunk.specs.Went.{branches};
ghost use Rattle.fsl_asrt.specs.Branch.{branches as branch_list, decided as decided_list};
ghost use Rattle.fsl_asrt.specs.Sides.{assumed, sides_of, taken};

use crate::asked::ask;
use crate::branch::{Branch, Decided};
use crate::given::{Given, Side};
use crate::sides::{agreeing, is_sure, sides};
use fsl_base::List;
use fsl_chunk::{Env, State, Went};
use fsl_core::{CmpOp, Cond, Kind};
use fsl_lin::Lin;
use std::alloc::{AllocError, Global};

/// Assumes it of two terms.
fn assume(alloc: Global, state: State, given: Given, a: &Lin, b: &Lin) -> Result<Went, AllocError>
    ensures { IfOk result (λ went. branches went ≡ assumed a.now b.now given state) }
{
    match given {
        Given::Nothing => Ok(Went::Goes { state }),
        Given::Equal => state.assume_equal(alloc, a, b),
        Given::Less => state.assume_at_most(alloc, a, 1, b),
        Given::AtMost => state.assume_at_most(alloc, a, 0, b),
        Given::Greater => state.assume_at_most(alloc, b, 1, a),
        Given::AtLeast => state.assume_at_most(alloc, b, 0, a),
    }
}

/// The branch of a side, if there is one.
fn branch_of(
    alloc: Global,
    state: State,
    side: Side,
    a: &Lin,
    b: &Lin,
) -> Result<List<Decided>, AllocError>
    ensures { IfOk result (λ ds. decided_list ds ≡ taken a.now b.now side state) }
{
    let went = assume(alloc, state, side.given, a, b)?;
    let mut out = List::new(alloc);
    match went {
        Went::Goes { state } => out.push(Decided::Goes {
            state,
            holds: side.holds,
        })?,
        Went::Infeasible => (),
        Went::Fails { kind } => out.push(Decided::Fails { kind })?,
    }
    Ok(out)
}

/// The branches of sides, in order. The last side takes the state itself.
fn each_side(
    alloc: Global,
    state: State,
    sides: &[Side],
    a: &Lin,
    b: &Lin,
) -> Result<List<Decided>, AllocError>
    ensures { IfOk result (λ ds. decided_list ds ≡ each_side (sides_of a.now b.now sides.now) state) }
{
    let Some((first, rest)) = sides.split_first() else {
        return Ok(List::new(alloc));
    };
    if rest.is_empty() {
        return branch_of(alloc, state, *first, a, b);
    }
    let fork = state.fork(alloc)?;
    let mut out = branch_of(alloc, fork, *first, a, b)?;
    let later = each_side(alloc, state, rest, a, b)?;
    out.append(later)?;
    Ok(out)
}

/// Decides a comparison of two terms.
pub fn decide(
    alloc: Global,
    state: State,
    op: CmpOp,
    a: &Lin,
    b: &Lin,
) -> Result<List<Decided>, AllocError>
    ensures { IfOk result (λ ds. decided_list ds ≡ each_side (decide op a.now b.now state.facts) state) }
{
    let sides = sides(alloc, &state, op, a, b)?;
    each_side(alloc, state, sides.as_slice(), a, b)
}

/// The one branch of a decision that fails.
fn failing(alloc: Global, kind: Kind) -> Result<List<Decided>, AllocError>
    ensures { IfOk result (λ ds. ds ≡ Decided.Fails kind ∷ []) }
{
    let mut out = List::new(alloc);
    out.push(Decided::Fails { kind })?;
    Ok(out)
}

/// Decides a condition. It fails with `Term` where a side is no term.
pub fn decide_cond(
    alloc: Global,
    state: State,
    cond: &Cond,
    env: &Env,
) -> Result<List<Decided>, AllocError>
    ensures { IfOk result (λ ds. decided_list ds ≡ decided (cond_of expr_of cond.now) env.now state) }
{
    match ask(alloc, &state, cond, env)? {
        Some(q) => each_side(alloc, state, q.sides.as_slice(), &q.a, &q.b),
        None => failing(alloc, Kind::Term),
    }
}

/// The branches of a condition with this answer alone.
fn with_answer(
    alloc: Global,
    state: State,
    answer: bool,
    cond: &Cond,
    env: &Env,
) -> Result<List<Decided>, AllocError>
    ensures { IfOk result (λ ds. followed (decided_list ds) (λ _. done) ≡ assume_cond answer (cond_of expr_of cond.now) env.now state) }
{
    match ask(alloc, &state, cond, env)? {
        Some(q) => {
            let kept = agreeing(alloc, answer, q.sides.as_slice())?;
            each_side(alloc, state, kept.as_slice(), &q.a, &q.b)
        }
        None => failing(alloc, Kind::Term),
    }
}

/// Assumes that a condition holds, or that it doesn't hold.
pub fn assume_cond(
    alloc: Global,
    state: State,
    answer: bool,
    cond: &Cond,
    env: &Env,
) -> Result<List<Branch>, AllocError>
    ensures { IfOk result (λ bs. branch_list bs ≡ assume_cond answer (cond_of expr_of cond.now) env.now state) }
{
    let decided = with_answer(alloc, state, answer, cond, env)?;
    let mut out = List::new(alloc);
    for branch in decided.into_vec() {
        match branch {
            Decided::Goes { state, .. } => out.push(Branch::Goes { state })?,
            Decided::Fails { kind } => out.push(Branch::Fails { kind })?,
        }
    }
    Ok(out)
}

/// Demands that a condition is proved; else the path fails by this kind.
pub fn demand_cond(
    alloc: Global,
    state: State,
    kind: Kind,
    cond: &Cond,
    env: &Env,
) -> Result<Went, AllocError>
    ensures { IfOk result (λ went. branches went ≡ demand_cond kind (cond_of expr_of cond.now) env.now state) }
{
    match ask(alloc, &state, cond, env)? {
        Some(q) if is_sure(q.sides.as_slice()) => Ok(Went::Goes { state }),
        Some(_) => Ok(Went::Fails { kind }),
        None => Ok(Went::Fails { kind: Kind::Term }),
    }
}
