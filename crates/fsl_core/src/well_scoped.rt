//! Whether the variables of procedures and invariants are scoped: the scopes in which their parts start, and whether
//! each part may stand there.
ghost use Rattle.std.specs.Prelude.{◌≡◌, ◌≤◌};
ghost use Rattle.fsl_core.specs.declared.scope.Sight.TheVariants as seen;
ghost use Rattle.fsl_core.specs.Scopes.{with_first, no_variables, nothing_declared, with_banks, parameters_of, kept, in_body, has_room, proc_is_scoped, given_to, inv_is_scoped};

use crate::declaration::{Inv, Proc};
use crate::scope::{MAX_SLOTS, Scope, Sight};
use crate::scoping::{asrt_fits, block_fits, stands};

/// No variable at all.
fn no_variables() -> Scope
    ensures { result ≡ no_variables }
{
    Scope {
        sights: [Sight::Kept; MAX_SLOTS],
        in_ensures: false,
        in_loop: false,
    }
}

/// The scope, where the first `count` variables are seen so.
fn with_first(count: u32, sight: Sight, scope: Scope) -> Scope
    ensures { result ≡ with_first count sight scope }
{
    let mut scope = scope;
    for slot in 0..count {
        scope.set(slot, sight);
    }
    scope
}

/// So many variables, none of which is visible.
fn nothing_declared(slots: u32) -> Scope
    ensures { result ≡ nothing_declared slots }
{
    with_first(slots, Sight::Free, no_variables())
}

/// The scope, where parameters among these are banks.
fn with_banks(params: u32, banks: &[u32], scope: Scope) -> Scope
    ensures { result ≡ with_banks params banks.now scope }
{
    let mut scope = scope;
    for bank in banks {
        if *bank < params {
            scope.set(*bank, Sight::Bank);
        }
    }
    scope
}

/// The parameters of a procedure.
fn parameters_of(proc: &Proc) -> Scope
    ensures { result ≡ parameters_of proc.now }
{
    let given = with_first(proc.params, Sight::Given, nothing_declared(proc.slots));
    with_banks(proc.params, proc.banks.as_slice(), given)
}

/// The parameters of an invariant, and the value of its location behind them.
fn given_to(inv: &Inv) -> Scope
    ensures { result ≡ given_to inv.now }
{
    let mut scope = with_first(inv.params, Sight::Either, nothing_declared(inv.slots));
    scope.set(inv.params, Sight::Given);
    scope
}

/// The scope of the body, where a binder of `requires` is neither visible nor declared.
#[tactic(auto, using(crate::proofs::Sights::kept_more))]
fn in_body(scope: Scope) -> Scope
    ensures { result ≡ in_body scope }
{
    let mut sights = scope.sights;
    for slot in 0..MAX_SLOTS {
        sights[slot] = scope.sights[slot].kept();
    }
    Scope {
        sights,
        in_ensures: scope.in_ensures,
        in_loop: scope.in_loop,
    }
}

/// Whether the numbers of parameters, variables and banks go together.
fn has_room(proc: &Proc) -> bool
    ensures { result ≡ has_room proc.now }
{
    proc.slots as usize <= MAX_SLOTS
        && proc.params <= proc.slots
        && proc.banks.len() <= proc.slots as usize
}

/// Whether the variables of a procedure are scoped.
pub(crate) fn proc_is_scoped(procs: &[Proc], proc: &Proc) -> bool
    ensures { result ≡ proc_is_scoped procs.now proc.now }
{
    if !has_room(proc) {
        return false;
    }
    let mut scope = parameters_of(proc);
    asrt_fits(&proc.pre, &mut scope)
        && stands(&proc.post, scope.in_ensures())
        && block_fits(procs, proc.body.as_slice(), in_body(scope))
}

/// Whether the variables of an invariant are scoped.
pub(crate) fn inv_is_scoped(inv: &Inv) -> bool
    ensures { result ≡ inv_is_scoped inv.now }
{
    if inv.slots as usize > MAX_SLOTS || inv.params >= inv.slots {
        return false;
    }
    let given = given_to(inv);
    for part in inv.parts.as_slice() {
        if !stands(part, given) {
            return false;
        }
    }
    true
}
