//! Copies of assertions. A helper copies one kind of assertion.
ghost use Rattle.std.specs.Prelude.{◌≡◌, IfOk};

use crate::assertion::{Asrt, Inst, Pat};
use crate::expr::{Cond, Expr};
use fsl_base::{Boxed, List, TryClone};
use std::alloc::{AllocError, Global};

impl TryClone for Inst {
    fn try_clone(&self, alloc: Global) -> Result<Inst, AllocError>
        ensures { IfOk result (λ copy. copy ≡ self.now) }
    {
        let args = self.args.try_clone(alloc)?;
        Ok(Inst {
            inv: self.inv,
            args,
        })
    }
}

impl TryClone for Pat {
    fn try_clone(&self, alloc: Global) -> Result<Pat, AllocError>
        ensures { IfOk result (λ copy. copy ≡ self.now) }
    {
        match self {
            Pat::Any => Ok(Pat::Any),
            Pat::Bind { slot } => Ok(Pat::Bind { slot: *slot }),
            Pat::Is { e } => {
                let e = e.try_clone(alloc)?;
                Ok(Pat::Is { e })
            }
        }
    }
}

impl TryClone for Asrt {
    fn try_clone(&self, alloc: Global) -> Result<Asrt, AllocError>
        ensures { IfOk result (λ copy. copy ≡ self.now) }
    {
        copy_asrt(alloc, self)
    }
}

#[cycle(copy_asrt)]
fn copy_asrt(alloc: Global, asrt: &Asrt) -> Result<Asrt, AllocError>
    ensures { IfOk result (λ copy. copy ≡ asrt.now) }
{
    match asrt {
        Asrt::Emp => Ok(Asrt::Emp),
        Asrt::Fact { cond } => fact(alloc, cond),
        Asrt::Points { at, share, pat } => points(alloc, at, share, pat),
        Asrt::Init { at } => init(alloc, at),
        Asrt::Rel { at, inst } => rel(alloc, at, inst),
        Asrt::Acq {
            at,
            inst,
            part,
            out,
        } => acq(alloc, at, inst, *part, out),
        Asrt::RmwAcq { at, inst } => rmw_acq(alloc, at, inst),
        Asrt::Tok { bank, n } => tok(alloc, *bank, n),
        Asrt::Auth { bank, n } => auth(alloc, *bank, n),
        Asrt::Choice { cond, yes, no } => {
            let yes = copy_boxed(alloc, yes.get())?;
            let no = copy_boxed(alloc, no.get())?;
            choice(alloc, cond, yes, no)
        }
        Asrt::Up { a } => copy_up(alloc, a.get()),
        Asrt::Down { a } => copy_down(alloc, a.get()),
        Asrt::Both { parts } => copy_both(alloc, parts.as_slice()),
    }
}

#[cycle(copy_asrt)]
fn copy_boxed(alloc: Global, a: &Asrt) -> Result<Boxed<Asrt>, AllocError>
    ensures { IfOk result (λ copy. copy ≡ a.now) }
{
    let a = copy_asrt(alloc, a)?;
    Boxed::new(alloc, a)
}

#[cycle(copy_asrt)]
fn copy_up(alloc: Global, a: &Asrt) -> Result<Asrt, AllocError>
    ensures { IfOk result (λ copy. copy ≡ Asrt.Up a.now) }
{
    let a = copy_boxed(alloc, a)?;
    Ok(Asrt::Up { a })
}

#[cycle(copy_asrt)]
fn copy_down(alloc: Global, a: &Asrt) -> Result<Asrt, AllocError>
    ensures { IfOk result (λ copy. copy ≡ Asrt.Down a.now) }
{
    let a = copy_boxed(alloc, a)?;
    Ok(Asrt::Down { a })
}

#[cycle(copy_asrt)]
fn copy_both(alloc: Global, parts: &[Asrt]) -> Result<Asrt, AllocError>
    ensures { IfOk result (λ copy. copy ≡ Asrt.Both parts.now) }
{
    let mut copies = List::new(alloc);
    for part in parts {
        copies.push(copy_asrt(alloc, part)?)?;
    }
    Ok(Asrt::Both { parts: copies })
}

fn fact(alloc: Global, cond: &Cond) -> Result<Asrt, AllocError>
    ensures { IfOk result (λ copy. copy ≡ Asrt.Fact cond.now) }
{
    let cond = cond.try_clone(alloc)?;
    Ok(Asrt::Fact { cond })
}

fn points(alloc: Global, at: &Expr, share: &Expr, pat: &Pat) -> Result<Asrt, AllocError>
    ensures { IfOk result (λ copy. copy ≡ Asrt.Points at.now share.now pat.now) }
{
    let at = at.try_clone(alloc)?;
    let share = share.try_clone(alloc)?;
    let pat = pat.try_clone(alloc)?;
    Ok(Asrt::Points { at, share, pat })
}

fn init(alloc: Global, at: &Expr) -> Result<Asrt, AllocError>
    ensures { IfOk result (λ copy. copy ≡ Asrt.Init at.now) }
{
    let at = at.try_clone(alloc)?;
    Ok(Asrt::Init { at })
}

fn rel(alloc: Global, at: &Expr, inst: &Inst) -> Result<Asrt, AllocError>
    ensures { IfOk result (λ copy. copy ≡ Asrt.Rel at.now inst.now) }
{
    let at = at.try_clone(alloc)?;
    let inst = inst.try_clone(alloc)?;
    Ok(Asrt::Rel { at, inst })
}

fn acq(
    alloc: Global,
    at: &Expr,
    inst: &Inst,
    part: u32,
    out: &List<Expr>,
) -> Result<Asrt, AllocError>
    ensures { IfOk result (λ copy. copy ≡ Asrt.Acq at.now inst.now part out.now) }
{
    let at = at.try_clone(alloc)?;
    let inst = inst.try_clone(alloc)?;
    let out = out.try_clone(alloc)?;
    Ok(Asrt::Acq {
        at,
        inst,
        part,
        out,
    })
}

fn rmw_acq(alloc: Global, at: &Expr, inst: &Inst) -> Result<Asrt, AllocError>
    ensures { IfOk result (λ copy. copy ≡ Asrt.RmwAcq at.now inst.now) }
{
    let at = at.try_clone(alloc)?;
    let inst = inst.try_clone(alloc)?;
    Ok(Asrt::RmwAcq { at, inst })
}

fn tok(alloc: Global, bank: u32, n: &Expr) -> Result<Asrt, AllocError>
    ensures { IfOk result (λ copy. copy ≡ Asrt.Tok bank n.now) }
{
    let n = n.try_clone(alloc)?;
    Ok(Asrt::Tok { bank, n })
}

fn auth(alloc: Global, bank: u32, n: &Expr) -> Result<Asrt, AllocError>
    ensures { IfOk result (λ copy. copy ≡ Asrt.Auth bank n.now) }
{
    let n = n.try_clone(alloc)?;
    Ok(Asrt::Auth { bank, n })
}

/// A choice of two assertions that are copies already.
fn choice(alloc: Global, cond: &Cond, yes: Boxed<Asrt>, no: Boxed<Asrt>) -> Result<Asrt, AllocError>
    ensures { IfOk result (λ copy. copy ≡ Asrt.Choice cond.now yes no) }
{
    let cond = cond.try_clone(alloc)?;
    Ok(Asrt::Choice { cond, yes, no })
}
