//! Which programs have their paths followed so far.
ghost use Rattle.std.specs.Prelude.{◌≡◌};
ghost use Rattle.std.specs.List.{list_all};
ghost use Rattle.fsl_flow.specs.Supported.{is_supported_act, are_supported, is_supported_proc, is_supported};

use fsl_core::{Act, Proc, Program, Stmt};

/// Whether an act is followed so far, with the statements inside it.
#[cycle(supported)]
fn is_supported_act(act: &Act) -> bool
    ensures { result ≡ is_supported_act act.now }
{
    match act {
        Act::Cas { .. } => false,
        Act::Add { .. } => false,
        Act::Swap { .. } => false,
        Act::Bank { .. } => false,
        Act::Step { .. } => false,
        Act::If { yes, no, .. } => are_supported(yes.as_slice()) && are_supported(no.as_slice()),
        Act::While { body, .. } => are_supported(body.as_slice()),
        _ => true,
    }
}

/// Whether each statement is followed so far.
#[cycle(supported)]
fn are_supported(stmts: &[Stmt]) -> bool
    ensures { result ≡ are_supported stmts.now }
{
    for stmt in stmts {
        if !is_supported_act(&stmt.act) {
            return false;
        }
    }
    true
}

/// Whether a procedure is followed so far.
fn is_supported_proc(proc: &Proc) -> bool
    ensures { result ≡ is_supported_proc proc.now }
{
    are_supported(proc.body.as_slice())
}

/// Whether the paths of a program are followed so far. It takes no memory.
pub fn is_supported(p: &Program) -> bool
    ensures { result ≡ is_supported p.now }
{
    for proc in p.procs() {
        if !is_supported_proc(proc) {
            return false;
        }
    }
    true
}
