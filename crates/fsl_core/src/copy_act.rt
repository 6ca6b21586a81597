//! Copies of statements. A helper copies one kind of statement.
ghost use Rattle.std.specs.Prelude.{◌≡◌, IfOk};

use crate::act::{Act, Called, Step, Stmt};
use crate::assertion::{Asrt, Inst};
use crate::expr::{Cond, Expr};
use crate::mode::Mode;
use fsl_base::{List, TryClone};
use std::alloc::{AllocError, Global};

impl TryClone for Step {
    fn try_clone(&self, alloc: Global) -> Result<Step, AllocError>
        ensures { IfOk result (λ copy. copy ≡ self.now) }
    {
        let n = self.n.try_clone(alloc)?;
        Ok(Step {
            mint: self.mint,
            bank: self.bank,
            n,
        })
    }
}

impl TryClone for Called {
    fn try_clone(&self, alloc: Global) -> Result<Called, AllocError>
        ensures { IfOk result (λ copy. copy ≡ self.now) }
    {
        let args = self.args.try_clone(alloc)?;
        Ok(Called {
            proc: self.proc,
            args,
        })
    }
}

impl TryClone for Act {
    fn try_clone(&self, alloc: Global) -> Result<Act, AllocError>
        ensures { IfOk result (λ copy. copy ≡ self.now) }
    {
        copy_act(alloc, self)
    }
}

impl TryClone for Stmt {
    fn try_clone(&self, alloc: Global) -> Result<Stmt, AllocError>
        ensures { IfOk result (λ copy. copy ≡ self.now) }
    {
        let act = copy_act(alloc, &self.act)?;
        Ok(Stmt {
            span: self.span,
            act,
        })
    }
}

#[cycle(copy_act)]
fn copy_act(alloc: Global, act: &Act) -> Result<Act, AllocError>
    ensures { IfOk result (λ copy. copy ≡ act.now) }
{
    match act {
        Act::Set { slot, e } => set(alloc, *slot, e),
        Act::AllocNa { slot } => Ok(Act::AllocNa { slot: *slot }),
        Act::AllocAt { slot, rmw, inst } => alloc_at(alloc, *slot, *rmw, inst),
        Act::Free { at } => free(alloc, at),
        Act::Load { slot, mode, at } => load(alloc, *slot, *mode, at),
        Act::Store { mode, at, e } => store(alloc, *mode, at, e),
        Act::Cas {
            slot,
            mode,
            fail,
            at,
            old,
            new,
            steps,
        } => cas(alloc, *slot, *mode, *fail, at, old, new, steps),
        Act::Add {
            slot,
            mode,
            at,
            e,
            steps,
        } => add(alloc, *slot, *mode, at, e, steps),
        Act::Swap {
            slot,
            mode,
            at,
            e,
            steps,
        } => swap(alloc, *slot, *mode, at, e, steps),
        Act::Call { slot, proc, args } => call(alloc, *slot, *proc, args),
        Act::Par { calls } => par(alloc, calls),
        Act::Fence { mode, asrt } => fence(alloc, *mode, asrt),
        Act::If { cond, yes, no } => {
            let yes = copy_block(alloc, yes.as_slice())?;
            copy_else(alloc, no.as_slice(), cond, yes)
        }
        Act::While { cond, inv, body } => copy_while(alloc, body.as_slice(), cond, inv),
        Act::Assert { cond } => assertion(alloc, cond),
        Act::Print { e } => print(alloc, e),
        Act::Return { e } => end(alloc, e),
        Act::Bank { slot } => Ok(Act::Bank { slot: *slot }),
        Act::Step { step } => token_step(alloc, step),
    }
}

#[cycle(copy_act)]
fn copy_block(alloc: Global, stmts: &[Stmt]) -> Result<List<Stmt>, AllocError>
    ensures { IfOk result (λ copy. copy ≡ stmts.now) }
{
    let mut copies = List::new(alloc);
    for stmt in stmts {
        let act = copy_act(alloc, &stmt.act)?;
        copies.push(Stmt {
            span: stmt.span,
            act,
        })?;
    }
    Ok(copies)
}

/// A branch whose first block is a copy already.
#[cycle(copy_act)]
fn copy_else(alloc: Global, no: &[Stmt], cond: &Cond, yes: List<Stmt>) -> Result<Act, AllocError>
    ensures { IfOk result (λ copy. copy ≡ Act.If cond.now yes no.now) }
{
    let no = copy_block(alloc, no)?;
    branch(alloc, cond, yes, no)
}

#[cycle(copy_act)]
fn copy_while(alloc: Global, body: &[Stmt], cond: &Cond, inv: &Asrt) -> Result<Act, AllocError>
    ensures { IfOk result (λ copy. copy ≡ Act.While cond.now inv.now body.now) }
{
    let body = copy_block(alloc, body)?;
    repeat(alloc, cond, inv, body)
}

fn set(alloc: Global, slot: u32, e: &Expr) -> Result<Act, AllocError>
    ensures { IfOk result (λ copy. copy ≡ Act.Set slot e.now) }
{
    let e = e.try_clone(alloc)?;
    Ok(Act::Set { slot, e })
}

fn alloc_at(alloc: Global, slot: u32, rmw: bool, inst: &Inst) -> Result<Act, AllocError>
    ensures { IfOk result (λ copy. copy ≡ Act.AllocAt slot rmw inst.now) }
{
    let inst = inst.try_clone(alloc)?;
    Ok(Act::AllocAt { slot, rmw, inst })
}

fn free(alloc: Global, at: &Expr) -> Result<Act, AllocError>
    ensures { IfOk result (λ copy. copy ≡ Act.Free at.now) }
{
    let at = at.try_clone(alloc)?;
    Ok(Act::Free { at })
}

fn load(alloc: Global, slot: u32, mode: Mode, at: &Expr) -> Result<Act, AllocError>
    ensures { IfOk result (λ copy. copy ≡ Act.Load slot mode at.now) }
{
    let at = at.try_clone(alloc)?;
    Ok(Act::Load { slot, mode, at })
}

fn store(alloc: Global, mode: Mode, at: &Expr, e: &Expr) -> Result<Act, AllocError>
    ensures { IfOk result (λ copy. copy ≡ Act.Store mode at.now e.now) }
{
    let at = at.try_clone(alloc)?;
    let e = e.try_clone(alloc)?;
    Ok(Act::Store { mode, at, e })
}

fn cas(
    alloc: Global,
    slot: u32,
    mode: Mode,
    fail: Mode,
    at: &Expr,
    old: &Expr,
    new: &Expr,
    steps: &List<Step>,
) -> Result<Act, AllocError>
    ensures { IfOk result (λ copy. copy ≡ Act.Cas slot mode fail at.now old.now new.now steps.now) }
{
    let at = at.try_clone(alloc)?;
    let old = old.try_clone(alloc)?;
    let new = new.try_clone(alloc)?;
    let steps = steps.try_clone(alloc)?;
    Ok(Act::Cas {
        slot,
        mode,
        fail,
        at,
        old,
        new,
        steps,
    })
}

fn add(
    alloc: Global,
    slot: u32,
    mode: Mode,
    at: &Expr,
    e: &Expr,
    steps: &List<Step>,
) -> Result<Act, AllocError>
    ensures { IfOk result (λ copy. copy ≡ Act.Add slot mode at.now e.now steps.now) }
{
    let at = at.try_clone(alloc)?;
    let e = e.try_clone(alloc)?;
    let steps = steps.try_clone(alloc)?;
    Ok(Act::Add {
        slot,
        mode,
        at,
        e,
        steps,
    })
}

fn swap(
    alloc: Global,
    slot: u32,
    mode: Mode,
    at: &Expr,
    e: &Expr,
    steps: &List<Step>,
) -> Result<Act, AllocError>
    ensures { IfOk result (λ copy. copy ≡ Act.Swap slot mode at.now e.now steps.now) }
{
    let at = at.try_clone(alloc)?;
    let e = e.try_clone(alloc)?;
    let steps = steps.try_clone(alloc)?;
    Ok(Act::Swap {
        slot,
        mode,
        at,
        e,
        steps,
    })
}

fn call(alloc: Global, slot: Option<u32>, proc: u32, args: &List<Expr>) -> Result<Act, AllocError>
    ensures { IfOk result (λ copy. copy ≡ Act.Call slot proc args.now) }
{
    let args = args.try_clone(alloc)?;
    Ok(Act::Call { slot, proc, args })
}

fn par(alloc: Global, calls: &List<Called>) -> Result<Act, AllocError>
    ensures { IfOk result (λ copy. copy ≡ Act.Par calls.now) }
{
    let calls = calls.try_clone(alloc)?;
    Ok(Act::Par { calls })
}

fn fence(alloc: Global, mode: Mode, asrt: &Asrt) -> Result<Act, AllocError>
    ensures { IfOk result (λ copy. copy ≡ Act.Fence mode asrt.now) }
{
    let asrt = asrt.try_clone(alloc)?;
    Ok(Act::Fence { mode, asrt })
}

/// A branch whose blocks are copies already.
fn branch(alloc: Global, cond: &Cond, yes: List<Stmt>, no: List<Stmt>) -> Result<Act, AllocError>
    ensures { IfOk result (λ copy. copy ≡ Act.If cond.now yes no) }
{
    let cond = cond.try_clone(alloc)?;
    Ok(Act::If { cond, yes, no })
}

/// A loop whose body is a copy already.
fn repeat(alloc: Global, cond: &Cond, inv: &Asrt, body: List<Stmt>) -> Result<Act, AllocError>
    ensures { IfOk result (λ copy. copy ≡ Act.While cond.now inv.now body) }
{
    let cond = cond.try_clone(alloc)?;
    let inv = inv.try_clone(alloc)?;
    Ok(Act::While { cond, inv, body })
}

fn assertion(alloc: Global, cond: &Cond) -> Result<Act, AllocError>
    ensures { IfOk result (λ copy. copy ≡ Act.Assert cond.now) }
{
    let cond = cond.try_clone(alloc)?;
    Ok(Act::Assert { cond })
}

fn print(alloc: Global, e: &Expr) -> Result<Act, AllocError>
    ensures { IfOk result (λ copy. copy ≡ Act.Print e.now) }
{
    let e = e.try_clone(alloc)?;
    Ok(Act::Print { e })
}

fn end(alloc: Global, e: &Expr) -> Result<Act, AllocError>
    ensures { IfOk result (λ copy. copy ≡ Act.Return e.now) }
{
    let e = e.try_clone(alloc)?;
    Ok(Act::Return { e })
}

fn token_step(alloc: Global, step: &Step) -> Result<Act, AllocError>
    ensures { IfOk result (λ copy. copy ≡ Act.Step step.now) }
{
    let step = step.try_clone(alloc)?;
    Ok(Act::Step { step })
}
