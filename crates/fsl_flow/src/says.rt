//! Whether an assertion speaks of the result of the procedure whose contract it stands in.
ghost use Rattle.std.specs.Prelude.{◌≡◌, map};
ghost use Rattle.std.specs.List.{list_any};
ghost use Rattle.fsl_core.specs.logic.Terms.{expr_of};
ghost use Rattle.fsl_core.specs.logic.Deciding.{cond_of, cond_says};
ghost use Rattle.fsl_core.specs.logic.Producing.{pat_of, pat_says, inst_of};
ghost use Rattle.fsl_core.specs.logic.Assertions.{asrt_of, inst_says};

use fsl_core::{Asrt, Cond, Expr, Inst, Pat};

/// Whether an expression speaks of the result.
fn expr_says(e: &Expr) -> bool
    ensures { result ≡ (expr_of e.now).says }
{
    match e {
        Expr::Const { .. } => false,
        Expr::Var { .. } => false,
        Expr::Result_ => true,
        Expr::Neg { e } => expr_says(e.get()),
        Expr::Sum { parts } => {
            for part in parts.as_slice() {
                if expr_says(&part.e) {
                    return true;
                }
            }
            false
        }
        Expr::Product { parts } => {
            for factor in parts.as_slice() {
                if expr_says(factor) {
                    return true;
                }
            }
            false
        }
    }
}

/// Whether a condition speaks of the result.
fn cond_says(cond: &Cond) -> bool
    ensures { result ≡ cond_says (cond_of expr_of cond.now) }
{
    match cond {
        Cond::Yes => false,
        Cond::No => false,
        Cond::Cmp { l, r, .. } => expr_says(l) || expr_says(r),
    }
}

/// Whether a pattern speaks of the result.
fn pat_says(pat: &Pat) -> bool
    ensures { result ≡ pat_says (pat_of expr_of pat.now) }
{
    match pat {
        Pat::Any => false,
        Pat::Bind { .. } => false,
        Pat::Is { e } => expr_says(e),
    }
}

/// Whether one of several expressions speaks of the result.
fn some_says(es: &[Expr]) -> bool
    ensures { result ≡ list_any (λ e. e.says) (map expr_of es.now) }
{
    for e in es {
        if expr_says(e) {
            return true;
        }
    }
    false
}

/// Whether a location or an argument of its invariant speaks of the result.
fn inst_says(at: &Expr, inst: &Inst) -> bool
    ensures { result ≡ inst_says (expr_of at.now) (inst_of expr_of inst.now) }
{
    expr_says(at) || some_says(inst.args.as_slice())
}

/// Whether an assertion speaks of the result. It takes no memory.
pub fn says(a: &Asrt) -> bool
    ensures { result ≡ (asrt_of a.now).says }
{
    match a {
        Asrt::Emp => false,
        Asrt::Fact { cond } => cond_says(cond),
        Asrt::Points { at, share, pat } => expr_says(at) || expr_says(share) || pat_says(pat),
        Asrt::Init { at } => expr_says(at),
        Asrt::Rel { at, inst } => inst_says(at, inst),
        Asrt::Acq { at, inst, out, .. } => inst_says(at, inst) || some_says(out.as_slice()),
        Asrt::RmwAcq { at, inst } => inst_says(at, inst),
        Asrt::Tok { n, .. } => expr_says(n),
        Asrt::Auth { n, .. } => expr_says(n),
        Asrt::Choice { cond, yes, no } => cond_says(cond) || says(yes.get()) || says(no.get()),
        Asrt::Up { a } => says(a.get()),
        Asrt::Down { a } => says(a.get()),
        Asrt::Both { parts } => {
            for part in parts.as_slice() {
                if says(part) {
                    return true;
                }
            }
            false
        }
    }
}
