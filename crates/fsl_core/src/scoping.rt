//! Whether variables are scoped and of a sort: assertions and statements are held against the scopes in which they
//! stand, one after the other. A block has a copy of the scope around it.
ghost use Rattle.std.specs.Prelude.{◌≡◌, ◌&&◌, ◌==◌, IsTrue};
ghost use Rattle.std.specs.List.{list_all, list_any};
ghost use Rattle.fsl_core.specs.declared.scope.Sight.TheVariants as seen;
ghost use Rattle.fsl_core.specs.Scopes.{is_free, is_settable, sight_at, with_sight, asrt_scoped, act_scoped, stmt_scoped, block_scoped, passes, arguments_fit, pat_fits, bound};

use crate::act::{Act, Called, Stmt};
use crate::assertion::{Asrt, Pat};
use crate::declaration::Proc;
use crate::expr::Expr;
use crate::scope::{Scope, Sight};

/// Whether a pattern may stand in a scope, which then has its binder.
fn pat_fits(pat: &Pat, scope: &mut Scope) -> bool
    ensures fits { result ≡ pat_fits scope.old pat.now }
    ensures behind { IsTrue result → scope.new ≡ bound pat.now scope.old }
{
    match pat {
        Pat::Any => true,
        Pat::Bind { slot } => {
            let free = scope.sight(*slot).is_free();
            scope.set(*slot, Sight::Bound);
            free
        }
        Pat::Is { e } => scope.reads(e),
    }
}

/// Whether an assertion may stand in a scope, which then has its binders.
#[cycle(asrt_fits)]
pub(crate) fn asrt_fits(asrt: &Asrt, scope: &mut Scope) -> bool
    ensures fits { result ≡ (asrt_scoped asrt.now).fits scope.old }
    ensures behind { IsTrue result → scope.new ≡ (asrt_scoped asrt.now).behind scope.old }
{
    match asrt {
        Asrt::Emp => true,
        Asrt::Fact { cond } => scope.tests(cond),
        Asrt::Points { at, share, pat } => {
            scope.reads(at) && scope.reads(share) && pat_fits(pat, scope)
        }
        Asrt::Init { at } => scope.reads(at),
        Asrt::Rel { at, inst } => scope.reads(at) && scope.inst_reads(inst),
        Asrt::Acq { at, inst, out, .. } => {
            scope.reads(at) && scope.inst_reads(inst) && scope.reads_all(out.as_slice())
        }
        Asrt::RmwAcq { at, inst } => scope.reads(at) && scope.inst_reads(inst),
        Asrt::Tok { bank, n } => scope.sight(*bank).is_bank() && scope.reads(n),
        Asrt::Auth { bank, n } => scope.sight(*bank).is_bank() && scope.reads(n),
        Asrt::Choice { cond, yes, no } => {
            scope.tests(cond) && stands(yes.get(), *scope) && stands(no.get(), *scope)
        }
        Asrt::Up { a } => stands(a.get(), *scope),
        Asrt::Down { a } => stands(a.get(), *scope),
        Asrt::Both { parts } => {
            for part in parts.as_slice() {
                if !asrt_fits(part, scope) {
                    return false;
                }
            }
            true
        }
    }
}

/// Whether an assertion whose binders end with it may stand in a scope.
#[cycle(asrt_fits)]
pub(crate) fn stands(asrt: &Asrt, scope: Scope) -> bool
    ensures { result ≡ (asrt_scoped asrt.now).fits scope }
{
    let mut inside = scope;
    asrt_fits(asrt, &mut inside)
}

/// Whether the parameter of a slot is a bank, where these are the banks.
fn is_among(banks: &[u32], slot: usize) -> bool
    ensures { result ≡ list_any (λ bank. bank == slot) banks.now }
{
    for bank in banks {
        if *bank as usize == slot {
            return true;
        }
    }
    false
}

/// Whether arguments may be given for the parameters of a procedure with these banks.
fn arguments_fit(scope: &Scope, banks: &[u32], args: &[Expr]) -> bool
    ensures { result ≡ arguments_fit scope.now banks.now 0 args.now }
{
    for (slot, e) in args.iter().enumerate() {
        if !scope.argument_fits(is_among(banks, slot), e) {
            return false;
        }
    }
    true
}

/// Whether arguments may be given to a procedure.
fn passes(procs: &[Proc], scope: &Scope, proc: u32, args: &[Expr]) -> bool
    ensures { result ≡ passes procs.now scope.now proc args.now }
{
    match procs.get(proc as usize) {
        Some(proc) => arguments_fit(scope, proc.banks.as_slice(), args),
        None => false,
    }
}

/// Whether arguments may be given to the procedures of a `par`.
fn calls_pass(procs: &[Proc], scope: &Scope, calls: &[Called]) -> bool
    ensures { result ≡ list_all (λ call. passes procs.now scope.now call.proc call.args) calls.now }
{
    for call in calls {
        if !passes(procs, scope, call.proc, call.args.as_slice()) {
            return false;
        }
    }
    true
}

/// Whether a variable may be set where the rest of its statement fits. From there on it is one of the body.
fn sets(slot: u32, fits: bool, scope: &mut Scope) -> bool
    ensures fits { result ≡ (is_settable (sight_at scope.old slot) && fits) }
    ensures behind { scope.new ≡ with_sight slot seen.Local scope.old }
{
    let settable = scope.sight(slot).is_settable();
    scope.set(slot, Sight::Local);
    settable && fits
}

/// Whether a bank may be declared, as it then is.
fn declares_bank(slot: u32, scope: &mut Scope) -> bool
    ensures fits { result ≡ is_free (sight_at scope.old slot) }
    ensures behind { scope.new ≡ with_sight slot seen.Bank scope.old }
{
    let free = scope.sight(slot).is_free();
    scope.set(slot, Sight::Bank);
    free
}

/// Whether what an act does may stand in a scope, which then is the one behind it.
#[cycle(act_fits)]
fn act_fits(procs: &[Proc], act: &Act, scope: &mut Scope) -> bool
    ensures fits { result ≡ (act_scoped procs.now act.now).fits scope.old }
    ensures behind { IsTrue result → scope.new ≡ (act_scoped procs.now act.now).behind scope.old }
{
    match act {
        Act::Set { slot, e } => sets(*slot, scope.reads(e), scope),
        Act::AllocNa { slot } => sets(*slot, true, scope),
        Act::AllocAt { slot, inst, .. } => sets(*slot, scope.inst_reads(inst), scope),
        Act::Free { at } => scope.reads(at),
        Act::Load { slot, at, .. } => sets(*slot, scope.reads(at), scope),
        Act::Store { at, e, .. } => scope.reads(at) && scope.reads(e),
        Act::Cas {
            slot,
            at,
            old,
            new,
            steps,
            ..
        } => {
            let fits = scope.reads(at)
                && scope.reads(old)
                && scope.reads(new)
                && scope.steps_read(steps.as_slice());
            sets(*slot, fits, scope)
        }
        Act::Add {
            slot,
            at,
            e,
            steps,
            ..
        } => sets(*slot, scope.update_reads(at, e, steps.as_slice()), scope),
        Act::Swap {
            slot,
            at,
            e,
            steps,
            ..
        } => sets(*slot, scope.update_reads(at, e, steps.as_slice()), scope),
        Act::Call { slot, proc, args } => {
            let fits = passes(procs, scope, *proc, args.as_slice());
            match slot {
                Some(slot) => sets(*slot, fits, scope),
                None => fits,
            }
        }
        Act::Par { calls } => calls_pass(procs, scope, calls.as_slice()),
        Act::Fence { asrt, .. } => stands(asrt, *scope),
        Act::If { cond, yes, no } => {
            scope.tests(cond)
                && block_fits(procs, yes.as_slice(), *scope)
                && block_fits(procs, no.as_slice(), *scope)
        }
        Act::While { cond, inv, body } => {
            scope.tests(cond)
                && stands(inv, *scope)
                && block_fits(procs, body.as_slice(), scope.in_loop())
        }
        Act::Assert { cond } => scope.tests(cond),
        Act::Print { e } => scope.reads(e),
        Act::Return { e } => !scope.in_loop && scope.reads(e),
        Act::Bank { slot } => declares_bank(*slot, scope),
        Act::Step { step } => scope.step_reads(step),
    }
}

/// Whether statements may stand in a scope, one after the other.
#[cycle(act_fits)]
#[tactic(auto, using(crate::proofs::Sights::stmt_is))]
pub(crate) fn block_fits(procs: &[Proc], stmts: &[Stmt], scope: Scope) -> bool
    ensures { result ≡ (block_scoped procs.now stmts.now).fits scope }
{
    let mut scope = scope;
    for stmt in stmts {
        if !act_fits(procs, &stmt.act, &mut scope) {
            return false;
        }
    }
    true
}
