//! Equality of statements. A helper compares one kind of statement with any.
ghost use Rattle.std.specs.Prelude.{◌≡◌, IsTrue, ◌↔◌};

use crate::act::{Act, Called, Step, Stmt};
use crate::assertion::{Asrt, Inst};
use crate::expr::{Cond, Expr};
use crate::mode::Mode;
use crate::same::same_items;
use fsl_base::{List, Same};

impl Same for Step {
    fn same(&self, other: &Step) -> bool
        ensures { IsTrue result ↔ (self.now ≡ other.now) }
    {
        self.mint == other.mint && self.bank == other.bank && self.n.same(&other.n)
    }
}

impl Same for Called {
    fn same(&self, other: &Called) -> bool
        ensures { IsTrue result ↔ (self.now ≡ other.now) }
    {
        self.proc == other.proc && same_items(self.args.as_slice(), other.args.as_slice())
    }
}

impl Same for Act {
    fn same(&self, other: &Act) -> bool
        ensures { IsTrue result ↔ (self.now ≡ other.now) }
    {
        same_act(self, other)
    }
}

impl Same for Stmt {
    fn same(&self, other: &Stmt) -> bool
        ensures { IsTrue result ↔ (self.now ≡ other.now) }
    {
        self.span == other.span && same_act(&self.act, &other.act)
    }
}

#[cycle(same_act)]
fn same_act(a: &Act, b: &Act) -> bool
    ensures { IsTrue result ↔ (a.now ≡ b.now) }
{
    match a {
        Act::Set { slot, e } => is_set(*slot, e, b),
        Act::AllocNa { slot } => is_alloc_na(*slot, b),
        Act::AllocAt { slot, rmw, inst } => is_alloc_at(*slot, *rmw, inst, b),
        Act::Free { at } => is_free(at, b),
        Act::Load { slot, mode, at } => is_load(*slot, *mode, at, b),
        Act::Store { mode, at, e } => is_store(*mode, at, e, b),
        Act::Cas {
            slot,
            mode,
            fail,
            at,
            old,
            new,
            steps,
        } => is_cas(*slot, *mode, *fail, at, old, new, steps, b),
        Act::Add {
            slot,
            mode,
            at,
            e,
            steps,
        } => is_add(*slot, *mode, at, e, steps, b),
        Act::Swap {
            slot,
            mode,
            at,
            e,
            steps,
        } => is_swap(*slot, *mode, at, e, steps, b),
        Act::Call { slot, proc, args } => is_call(*slot, *proc, args, b),
        Act::Par { calls } => is_par(calls, b),
        Act::Fence { mode, asrt } => is_fence(*mode, asrt, b),
        Act::If { cond, yes, no } => match b {
            Act::If {
                cond: c,
                yes: y,
                no: n,
            } => cond.same(c)
                && same_block(yes.as_slice(), y.as_slice())
                && same_block(no.as_slice(), n.as_slice()),
            _ => false,
        },
        Act::While { cond, inv, body } => match b {
            Act::While {
                cond: c,
                inv: i,
                body: o,
            } => cond.same(c) && inv.same(i) && same_block(body.as_slice(), o.as_slice()),
            _ => false,
        },
        Act::Assert { cond } => is_assert(cond, b),
        Act::Print { e } => is_print(e, b),
        Act::Return { e } => is_return(e, b),
        Act::Bank { slot } => is_bank(*slot, b),
        Act::Step { step } => is_step(step, b),
    }
}

#[cycle(same_act)]
fn same_block(a: &[Stmt], b: &[Stmt]) -> bool
    ensures { IsTrue result ↔ (a.now ≡ b.now) }
{
    if a.len() != b.len() {
        return false;
    }
    for i in 0..a.len() {
        if a[i].span != b[i].span || !same_act(&a[i].act, &b[i].act) {
            return false;
        }
    }
    true
}

fn is_set(slot: u32, e: &Expr, other: &Act) -> bool
    ensures { IsTrue result ↔ (Act.Set slot e.now ≡ other.now) }
{
    match other {
        Act::Set {
            slot: other_slot,
            e: other_e,
        } => slot == *other_slot && e.same(other_e),
        _ => false,
    }
}

fn is_alloc_na(slot: u32, other: &Act) -> bool
    ensures { IsTrue result ↔ (Act.AllocNa slot ≡ other.now) }
{
    match other {
        Act::AllocNa { slot: other_slot } => slot == *other_slot,
        _ => false,
    }
}

fn is_alloc_at(slot: u32, rmw: bool, inst: &Inst, other: &Act) -> bool
    ensures { IsTrue result ↔ (Act.AllocAt slot rmw inst.now ≡ other.now) }
{
    match other {
        Act::AllocAt {
            slot: other_slot,
            rmw: other_rmw,
            inst: other_inst,
        } => slot == *other_slot && rmw == *other_rmw && inst.same(other_inst),
        _ => false,
    }
}

fn is_free(at: &Expr, other: &Act) -> bool
    ensures { IsTrue result ↔ (Act.Free at.now ≡ other.now) }
{
    match other {
        Act::Free { at: other_at } => at.same(other_at),
        _ => false,
    }
}

fn is_load(slot: u32, mode: Mode, at: &Expr, other: &Act) -> bool
    ensures { IsTrue result ↔ (Act.Load slot mode at.now ≡ other.now) }
{
    match other {
        Act::Load {
            slot: other_slot,
            mode: other_mode,
            at: other_at,
        } => slot == *other_slot && mode == *other_mode && at.same(other_at),
        _ => false,
    }
}

fn is_store(mode: Mode, at: &Expr, e: &Expr, other: &Act) -> bool
    ensures { IsTrue result ↔ (Act.Store mode at.now e.now ≡ other.now) }
{
    match other {
        Act::Store {
            mode: other_mode,
            at: other_at,
            e: other_e,
        } => mode == *other_mode && at.same(other_at) && e.same(other_e),
        _ => false,
    }
}

fn is_cas(
    slot: u32,
    mode: Mode,
    fail: Mode,
    at: &Expr,
    old: &Expr,
    new: &Expr,
    steps: &List<Step>,
    other: &Act,
) -> bool
    ensures { IsTrue result ↔ (Act.Cas slot mode fail at.now old.now new.now steps.now ≡ other.now) }
{
    match other {
        Act::Cas {
            slot: other_slot,
            mode: other_mode,
            fail: other_fail,
            at: other_at,
            old: other_old,
            new: other_new,
            steps: other_steps,
        } => slot == *other_slot
            && mode == *other_mode
            && fail == *other_fail
            && at.same(other_at)
            && old.same(other_old)
            && new.same(other_new)
            && same_items(steps.as_slice(), other_steps.as_slice()),
        _ => false,
    }
}

fn is_add(slot: u32, mode: Mode, at: &Expr, e: &Expr, steps: &List<Step>, other: &Act) -> bool
    ensures { IsTrue result ↔ (Act.Add slot mode at.now e.now steps.now ≡ other.now) }
{
    match other {
        Act::Add {
            slot: other_slot,
            mode: other_mode,
            at: other_at,
            e: other_e,
            steps: other_steps,
        } => slot == *other_slot
            && mode == *other_mode
            && at.same(other_at)
            && e.same(other_e)
            && same_items(steps.as_slice(), other_steps.as_slice()),
        _ => false,
    }
}

fn is_swap(slot: u32, mode: Mode, at: &Expr, e: &Expr, steps: &List<Step>, other: &Act) -> bool
    ensures { IsTrue result ↔ (Act.Swap slot mode at.now e.now steps.now ≡ other.now) }
{
    match other {
        Act::Swap {
            slot: other_slot,
            mode: other_mode,
            at: other_at,
            e: other_e,
            steps: other_steps,
        } => slot == *other_slot
            && mode == *other_mode
            && at.same(other_at)
            && e.same(other_e)
            && same_items(steps.as_slice(), other_steps.as_slice()),
        _ => false,
    }
}

fn is_call(slot: Option<u32>, proc: u32, args: &List<Expr>, other: &Act) -> bool
    ensures { IsTrue result ↔ (Act.Call slot proc args.now ≡ other.now) }
{
    match other {
        Act::Call {
            slot: other_slot,
            proc: other_proc,
            args: other_args,
        } => slot == *other_slot
            && proc == *other_proc
            && same_items(args.as_slice(), other_args.as_slice()),
        _ => false,
    }
}

fn is_par(calls: &List<Called>, other: &Act) -> bool
    ensures { IsTrue result ↔ (Act.Par calls.now ≡ other.now) }
{
    match other {
        Act::Par { calls: other_calls } => same_items(calls.as_slice(), other_calls.as_slice()),
        _ => false,
    }
}

fn is_fence(mode: Mode, asrt: &Asrt, other: &Act) -> bool
    ensures { IsTrue result ↔ (Act.Fence mode asrt.now ≡ other.now) }
{
    match other {
        Act::Fence {
            mode: other_mode,
            asrt: other_asrt,
        } => mode == *other_mode && asrt.same(other_asrt),
        _ => false,
    }
}

fn is_assert(cond: &Cond, other: &Act) -> bool
    ensures { IsTrue result ↔ (Act.Assert cond.now ≡ other.now) }
{
    match other {
        Act::Assert { cond: other_cond } => cond.same(other_cond),
        _ => false,
    }
}

fn is_print(e: &Expr, other: &Act) -> bool
    ensures { IsTrue result ↔ (Act.Print e.now ≡ other.now) }
{
    match other {
        Act::Print { e: other_e } => e.same(other_e),
        _ => false,
    }
}

fn is_return(e: &Expr, other: &Act) -> bool
    ensures { IsTrue result ↔ (Act.Return e.now ≡ other.now) }
{
    match other {
        Act::Return { e: other_e } => e.same(other_e),
        _ => false,
    }
}

fn is_bank(slot: u32, other: &Act) -> bool
    ensures { IsTrue result ↔ (Act.Bank slot ≡ other.now) }
{
    match other {
        Act::Bank { slot: other_slot } => slot == *other_slot,
        _ => false,
    }
}

fn is_step(step: &Step, other: &Act) -> bool
    ensures { IsTrue result ↔ (Act.Step step.now ≡ other.now) }
{
    match other {
        Act::Step { step: other_step } => step.same(other_step),
        _ => false,
    }
}
