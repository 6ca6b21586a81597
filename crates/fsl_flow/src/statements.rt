//! Statements that have one rule: all but branches, loops and returns.
ghost use Rattle.std.specs.Prelude.{◌≡◌, IfOk, IsTrue};
ghost use Rattle.fsl_core.specs.logic.Terms.{expr_of};
ghost use Rattle.fsl_core.specs.logic.Deciding.{cond_of};
ghost use Rattle.fsl_core.specs.logic.Assertions.{asrt_of};
ghost use Rattle.fsl_core.specs.logic.Locations.{setting_of};
ghost use Rattle.fsl_core.specs.logic.Paths.{set_to, assert, print};
ghost use Rattle.fsl_chunk.specs.Went.{branches};
ghost use Rattle.fsl_flow.specs.Supported.{is_supported_act};
ghost use Rattle.fsl_flow.specs.Statements.{has_rule, rule_of, branches_came};

use crate::calls::call;
use crate::par::par;
use fsl_access::{alloc_at, alloc_na, fence, free, load, store};
use fsl_asrt::{Branch, demand_cond, read};
use fsl_base::List;
use fsl_chunk::{State, Went};
use fsl_core::{Act, Cond, Expr, Kind, Program};
use std::alloc::{AllocError, Global};

/// What came of a rule: at most one branch, or several in order.
#[derive(Drop)]
pub enum Came {
    One(Went),
    Several(List<Branch>),
}

/// Whether an act has one rule.
pub fn has_rule(act: &Act) -> bool
    ensures { result ≡ has_rule act.now }
{
    match act {
        Act::If { .. } => false,
        Act::While { .. } => false,
        Act::Return { .. } => false,
        _ => true,
    }
}

/// Goes on by the rule of an act.
pub fn follow(alloc: Global, p: &Program, state: State, act: &Act) -> Result<Came, AllocError>
    requires supported { IsTrue (is_supported_act act.now) }
    requires ruled { IsTrue (has_rule act.now) }
    ensures { IfOk result (λ came. branches_came came ≡ rule_of (setting_of asrt_of p.now) act.now state) }
{
    match act {
        Act::Set { slot, e } => Ok(Came::One(set_to(alloc, state, *slot, e)?)),
        Act::AllocNa { slot } => Ok(Came::One(alloc_na(alloc, state, *slot)?)),
        Act::AllocAt { slot, rmw, inst } => Ok(Came::One(alloc_at(
            alloc, p, state, *slot, *rmw, inst,
        )?)),
        Act::Free { at } => Ok(Came::One(free(alloc, state, at)?)),
        Act::Load { slot, mode, at } => Ok(Came::Several(load(alloc, p, state, *slot, *mode, at)?)),
        Act::Store { mode, at, e } => Ok(Came::Several(store(alloc, p, state, *mode, at, e)?)),
        Act::Call { slot, proc, args } => {
            let args = args.as_slice();
            Ok(Came::Several(call(alloc, p, state, *slot, *proc, args)?))
        }
        Act::Par { calls } => Ok(Came::Several(par(alloc, p, state, calls.as_slice())?)),
        Act::Fence { mode, asrt } => Ok(Came::Several(fence(alloc, state, *mode, asrt)?)),
        Act::Assert { cond } => Ok(Came::One(assert(alloc, state, cond)?)),
        Act::Print { e } => Ok(Came::One(print(alloc, state, e)?)),
        _ => unreachable!(),
    }
}

/// A variable is set to the term of an expression.
#[tactic(auto, using(crate::proofs::StatementsLemmas::set_some, crate::proofs::StatementsLemmas::set_none))]
fn set_to(alloc: Global, state: State, slot: u32, e: &Expr) -> Result<Went, AllocError>
    ensures { IfOk result (λ went. branches went ≡ set_to slot (expr_of e.now) state) }
{
    let mut state = state;
    match read(alloc, &state, e, state.env())? {
        Some(t) => {
            state.set(alloc, slot, t)?;
            Ok(Went::Goes { state })
        }
        None => Ok(Went::Fails { kind: Kind::Term }),
    }
}

/// A condition that has to be proved.
#[tactic(auto, using(crate::proofs::StatementsLemmas::asserted))]
fn assert(alloc: Global, state: State, cond: &Cond) -> Result<Went, AllocError>
    ensures { IfOk result (λ went. branches went ≡ assert (cond_of expr_of cond.now) state) }
{
    let env = state.env().fork(alloc)?;
    demand_cond(alloc, state, Kind::Assert, cond, &env)
}

/// A number is printed, which has to have a term.
#[tactic(auto, using(crate::proofs::StatementsLemmas::print_some, crate::proofs::StatementsLemmas::print_none))]
fn print(alloc: Global, state: State, e: &Expr) -> Result<Went, AllocError>
    ensures { IfOk result (λ went. branches went ≡ print (expr_of e.now) state) }
{
    match read(alloc, &state, e, state.env())? {
        Some(_t) => Ok(Went::Goes { state }),
        None => Ok(Went::Fails { kind: Kind::Term }),
    }
}
