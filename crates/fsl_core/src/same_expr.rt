//! Equality of expressions and conditions.
ghost use Rattle.std.specs.Prelude.{◌≡◌, IsTrue, ◌↔◌};

use crate::expr::{Cond, Expr, Part};
use fsl_base::Same;

impl Same for Expr {
    fn same(&self, other: &Expr) -> bool
        ensures { IsTrue result ↔ (self.now ≡ other.now) }
    {
        same_expr(self, other)
    }
}

impl Same for Part {
    fn same(&self, other: &Part) -> bool
        ensures { IsTrue result ↔ (self.now ≡ other.now) }
    {
        self.minus == other.minus && same_expr(&self.e, &other.e)
    }
}

#[cycle(same_expr)]
fn same_expr(a: &Expr, b: &Expr) -> bool
    ensures { IsTrue result ↔ (a.now ≡ b.now) }
{
    match (a, b) {
        (Expr::Const { n }, Expr::Const { n: m }) => *n == *m,
        (Expr::Var { slot }, Expr::Var { slot: s }) => *slot == *s,
        (Expr::Result_, Expr::Result_) => true,
        (Expr::Neg { e }, Expr::Neg { e: f }) => same_expr(e.get(), f.get()),
        (Expr::Sum { parts }, Expr::Sum { parts: others }) => same_parts(
            parts.as_slice(),
            others.as_slice(),
        ),
        (Expr::Product { parts }, Expr::Product { parts: others }) => same_factors(
            parts.as_slice(),
            others.as_slice(),
        ),
        _ => false,
    }
}

#[cycle(same_expr)]
fn same_parts(a: &[Part], b: &[Part]) -> bool
    ensures { IsTrue result ↔ (a.now ≡ b.now) }
{
    if a.len() != b.len() {
        return false;
    }
    for i in 0..a.len() {
        if a[i].minus != b[i].minus || !same_expr(&a[i].e, &b[i].e) {
            return false;
        }
    }
    true
}

#[cycle(same_expr)]
fn same_factors(a: &[Expr], b: &[Expr]) -> bool
    ensures { IsTrue result ↔ (a.now ≡ b.now) }
{
    if a.len() != b.len() {
        return false;
    }
    for i in 0..a.len() {
        if !same_expr(&a[i], &b[i]) {
            return false;
        }
    }
    true
}

impl Same for Cond {
    fn same(&self, other: &Cond) -> bool
        ensures { IsTrue result ↔ (self.now ≡ other.now) }
    {
        match (self, other) {
            (Cond::Yes, Cond::Yes) => true,
            (Cond::No, Cond::No) => true,
            (Cond::Cmp { op, l, r }, Cond::Cmp { op: o, l: m, r: s }) => *op == *o
                && l.same(m)
                && r.same(s),
            _ => false,
        }
    }
}
