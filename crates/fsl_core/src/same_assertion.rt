//! Equality of assertions. A helper compares one kind of assertion with any.
ghost use Rattle.std.specs.Prelude.{◌≡◌, IsTrue, ◌↔◌};

use crate::assertion::{Asrt, Inst, Pat};
use crate::expr::{Cond, Expr};
use crate::same::same_items;
use fsl_base::{List, Same};

impl Same for Inst {
    fn same(&self, other: &Inst) -> bool
        ensures { IsTrue result ↔ (self.now ≡ other.now) }
    {
        self.inv == other.inv && same_items(self.args.as_slice(), other.args.as_slice())
    }
}

impl Same for Pat {
    fn same(&self, other: &Pat) -> bool
        ensures { IsTrue result ↔ (self.now ≡ other.now) }
    {
        match (self, other) {
            (Pat::Any, Pat::Any) => true,
            (Pat::Bind { slot }, Pat::Bind { slot: s }) => *slot == *s,
            (Pat::Is { e }, Pat::Is { e: f }) => e.same(f),
            _ => false,
        }
    }
}

impl Same for Asrt {
    fn same(&self, other: &Asrt) -> bool
        ensures { IsTrue result ↔ (self.now ≡ other.now) }
    {
        same_asrt(self, other)
    }
}

#[cycle(same_asrt)]
fn same_asrt(a: &Asrt, b: &Asrt) -> bool
    ensures { IsTrue result ↔ (a.now ≡ b.now) }
{
    match a {
        Asrt::Emp => is_emp(b),
        Asrt::Fact { cond } => is_fact(cond, b),
        Asrt::Points { at, share, pat } => is_points(at, share, pat, b),
        Asrt::Init { at } => is_init(at, b),
        Asrt::Rel { at, inst } => is_rel(at, inst, b),
        Asrt::Acq {
            at,
            inst,
            part,
            out,
        } => is_acq(at, inst, *part, out, b),
        Asrt::RmwAcq { at, inst } => is_rmw_acq(at, inst, b),
        Asrt::Tok { bank, n } => is_tok(*bank, n, b),
        Asrt::Auth { bank, n } => is_auth(*bank, n, b),
        Asrt::Choice { cond, yes, no } => match b {
            Asrt::Choice {
                cond: c,
                yes: y,
                no: n,
            } => cond.same(c) && same_asrt(yes.get(), y.get()) && same_asrt(no.get(), n.get()),
            _ => false,
        },
        Asrt::Up { a } => match b {
            Asrt::Up { a: o } => same_asrt(a.get(), o.get()),
            _ => false,
        },
        Asrt::Down { a } => match b {
            Asrt::Down { a: o } => same_asrt(a.get(), o.get()),
            _ => false,
        },
        Asrt::Both { parts } => match b {
            Asrt::Both { parts: others } => same_asrts(parts.as_slice(), others.as_slice()),
            _ => false,
        },
    }
}

#[cycle(same_asrt)]
fn same_asrts(a: &[Asrt], b: &[Asrt]) -> bool
    ensures { IsTrue result ↔ (a.now ≡ b.now) }
{
    if a.len() != b.len() {
        return false;
    }
    for i in 0..a.len() {
        if !same_asrt(&a[i], &b[i]) {
            return false;
        }
    }
    true
}

fn is_emp(other: &Asrt) -> bool
    ensures { IsTrue result ↔ (Asrt.Emp ≡ other.now) }
{
    match other {
        Asrt::Emp => true,
        _ => false,
    }
}

fn is_fact(cond: &Cond, other: &Asrt) -> bool
    ensures { IsTrue result ↔ (Asrt.Fact cond.now ≡ other.now) }
{
    match other {
        Asrt::Fact { cond: c } => cond.same(c),
        _ => false,
    }
}

fn is_points(at: &Expr, share: &Expr, pat: &Pat, other: &Asrt) -> bool
    ensures { IsTrue result ↔ (Asrt.Points at.now share.now pat.now ≡ other.now) }
{
    match other {
        Asrt::Points {
            at: a,
            share: s,
            pat: p,
        } => at.same(a) && share.same(s) && pat.same(p),
        _ => false,
    }
}

fn is_init(at: &Expr, other: &Asrt) -> bool
    ensures { IsTrue result ↔ (Asrt.Init at.now ≡ other.now) }
{
    match other {
        Asrt::Init { at: a } => at.same(a),
        _ => false,
    }
}

fn is_rel(at: &Expr, inst: &Inst, other: &Asrt) -> bool
    ensures { IsTrue result ↔ (Asrt.Rel at.now inst.now ≡ other.now) }
{
    match other {
        Asrt::Rel { at: a, inst: i } => at.same(a) && inst.same(i),
        _ => false,
    }
}

fn is_acq(at: &Expr, inst: &Inst, part: u32, out: &List<Expr>, other: &Asrt) -> bool
    ensures { IsTrue result ↔ (Asrt.Acq at.now inst.now part out.now ≡ other.now) }
{
    match other {
        Asrt::Acq {
            at: a,
            inst: i,
            part: p,
            out: o,
        } => at.same(a) && inst.same(i) && part == *p && same_items(out.as_slice(), o.as_slice()),
        _ => false,
    }
}

fn is_rmw_acq(at: &Expr, inst: &Inst, other: &Asrt) -> bool
    ensures { IsTrue result ↔ (Asrt.RmwAcq at.now inst.now ≡ other.now) }
{
    match other {
        Asrt::RmwAcq { at: a, inst: i } => at.same(a) && inst.same(i),
        _ => false,
    }
}

fn is_tok(bank: u32, n: &Expr, other: &Asrt) -> bool
    ensures { IsTrue result ↔ (Asrt.Tok bank n.now ≡ other.now) }
{
    match other {
        Asrt::Tok { bank: b, n: m } => bank == *b && n.same(m),
        _ => false,
    }
}

fn is_auth(bank: u32, n: &Expr, other: &Asrt) -> bool
    ensures { IsTrue result ↔ (Asrt.Auth bank n.now ≡ other.now) }
{
    match other {
        Asrt::Auth { bank: b, n: m } => bank == *b && n.same(m),
        _ => false,
    }
}
