//! Which programs are straight: one procedure `main` whose statements set, load, store, allocate, assert
//! and print, one after the other, over sums and non-atomic cells.
ghost use Rattle.std.specs.Prelude.{◌≡◌, ◌<◌, ◌≤◌, IsTrue, IfSome};
ghost use Rattle.std.specs.List.{list_all, filter_map};
ghost use Rattle.fsl_core.specs.Straight.{is_sum, is_equation, is_straight_act, slot_set, are_distinct, is_emp, is_straight_proc, is_straight};

use crate::act::{Act, Stmt};
use crate::assertion::Asrt;
use crate::declaration::Proc;
use crate::expr::{CmpOp, Cond, Expr};
use crate::mode::Mode;
use crate::program::Program;

/// The most slots that a procedure has.
const MAX_SLOTS: usize = 256;

/// Whether an expression is made of constants, sums and the variables of the first slots alone.
pub fn is_sum(e: &Expr, slots: u32) -> bool
    ensures { result ≡ is_sum e.now slots }
{
    match e {
        Expr::Const { .. } => true,
        Expr::Var { slot } => *slot < slots,
        Expr::Sum { parts } => {
            for part in parts.as_slice() {
                if !is_sum(&part.e, slots) {
                    return false;
                }
            }
            true
        }
        _ => false,
    }
}

/// Whether a condition is an equation of two sums.
fn is_equation(cond: &Cond, slots: u32) -> bool
    ensures { result ≡ is_equation cond.now slots }
{
    match cond {
        Cond::Cmp {
            op: CmpOp::Eq,
            l,
            r,
        } => is_sum(l, slots) && is_sum(r, slots),
        _ => false,
    }
}

/// Whether an act is one of a straight program.
fn is_straight_act(act: &Act, slots: u32) -> bool
    ensures { result ≡ is_straight_act act.now slots }
{
    match act {
        Act::Set { slot, e } => *slot < slots && is_sum(e, slots),
        Act::AllocNa { slot } => *slot < slots,
        Act::Load {
            slot,
            mode: Mode::Na,
            at,
        } => *slot < slots && is_sum(at, slots),
        Act::Store {
            mode: Mode::Na,
            at,
            e,
        } => is_sum(at, slots) && is_sum(e, slots),
        Act::Assert { cond } => is_equation(cond, slots),
        Act::Print { e } => is_sum(e, slots),
        _ => false,
    }
}

/// Whether each statement is one of a straight program.
fn are_straight(body: &[Stmt], slots: u32) -> bool
    ensures { result ≡ list_all (λ stmt. is_straight_act stmt.act slots) body.now }
{
    for stmt in body {
        if !is_straight_act(&stmt.act, slots) {
            return false;
        }
    }
    true
}

/// The slot that a statement sets.
fn slot_set(stmt: &Stmt, slots: u32) -> Option<u32>
    requires { IsTrue (is_straight_act stmt.now.act slots) }
    ensures value { result ≡ slot_set stmt.now }
    ensures below { IfSome result (λ slot. slot < slots) }
{
    match &stmt.act {
        Act::Set { slot, .. } => Some(*slot),
        Act::AllocNa { slot } => Some(*slot),
        Act::Load { slot, .. } => Some(*slot),
        _ => None,
    }
}

/// Whether no two statements set one slot. The last is looked at first, and each slot is marked.
fn set_distinct(body: &[Stmt], slots: u32) -> bool
    requires straight { IsTrue (list_all (λ stmt. is_straight_act stmt.act slots) body.now) }
    requires few { slots ≤ 256 }
    ensures { result ≡ are_distinct (filter_map slot_set body.now) }
{
    let mut marks = [false; MAX_SLOTS];
    let mut left = body.len();
    while left > 0 {
        left -= 1;
        if let Some(slot) = slot_set(&body[left], slots) {
            if marks[slot as usize] {
                return false;
            }
            marks[slot as usize] = true;
        }
    }
    true
}

/// Whether an assertion is `emp`.
pub(crate) fn is_emp(asrt: &Asrt) -> bool
    ensures { result ≡ is_emp asrt.now }
{
    match asrt {
        Asrt::Emp => true,
        _ => false,
    }
}

/// Whether a procedure is that of a straight program.
fn is_straight_proc(proc: &Proc) -> bool
    ensures { result ≡ is_straight_proc proc.now }
{
    proc.name.as_str() == "main"
        && proc.params == 0
        && is_emp(&proc.pre)
        && is_emp(&proc.post)
        && proc.slots <= 256
        && are_straight(proc.body.as_slice(), proc.slots)
        && set_distinct(proc.body.as_slice(), proc.slots)
}

/// Whether a program is straight. It takes no memory, and time in proportion to the program's size.
pub fn is_straight(p: &Program) -> bool
    ensures { result ≡ is_straight p.now }
{
    p.invs().is_empty() && p.procs().len() == 1 && is_straight_proc(&p.procs()[0])
}
