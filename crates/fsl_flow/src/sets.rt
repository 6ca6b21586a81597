//! The slots that statements set: how many are declared behind a statement, and whether one is set.
ghost use Rattle.std.specs.Prelude.{◌≡◌, ◌==◌, [], ◌∷◌, is_some, IfSome};
ghost use Rattle.std.specs.List.{list_any};
ghost use Rattle.fsl_core.specs.logic.Slots.{past};
ghost use Rattle.fsl_flow.specs.Sets.{act_sets, stmts_set};

use fsl_core::{Act, Stmt};

/// How many slots are declared behind an act: one more than the highest that is set.
#[cycle(past)]
pub fn past(declared: u64, act: &Act) -> u64
    ensures { result ≡ past declared (act_sets act.now) }
{
    match act {
        Act::Set { slot, .. } => with(declared, *slot),
        Act::AllocNa { slot } => with(declared, *slot),
        Act::AllocAt { slot, .. } => with(declared, *slot),
        Act::Load { slot, .. } => with(declared, *slot),
        Act::Cas { slot, .. } => with(declared, *slot),
        Act::Add { slot, .. } => with(declared, *slot),
        Act::Swap { slot, .. } => with(declared, *slot),
        Act::Call {
            slot: Some(slot),
            ..
        } => with(declared, *slot),
        Act::If { yes, no, .. } => past_all(past_all(declared, yes.as_slice()), no.as_slice()),
        Act::While { body, .. } => past_all(declared, body.as_slice()),
        Act::Bank { slot } => with(declared, *slot),
        _ => declared,
    }
}

/// How many slots are declared behind statements.
#[cycle(past)]
fn past_all(declared: u64, stmts: &[Stmt]) -> u64
    ensures { result ≡ past declared (stmts_set stmts.now) }
{
    let mut so_far = declared;
    for stmt in stmts {
        so_far = past(so_far, &stmt.act);
    }
    so_far
}

/// How many slots are declared with one more.
fn with(declared: u64, slot: u32) -> u64
    ensures { result ≡ past declared (slot ∷ []) }
{
    let more = u64::from(slot) + 1;
    if declared < more { more } else { declared }
}

/// The slot of this number, where an act sets it.
#[cycle(set_in)]
#[tactic(auto, using(crate::proofs::SetsLemmas::any_append))]
fn set_in(act: &Act, number: u64) -> Option<u32>
    ensures found { is_some result ≡ list_any (λ slot. slot == number) (act_sets act.now) }
    ensures is { IfSome result (λ slot. slot ≡ number) }
{
    match act {
        Act::Set { slot, .. } => same(*slot, number),
        Act::AllocNa { slot } => same(*slot, number),
        Act::AllocAt { slot, .. } => same(*slot, number),
        Act::Load { slot, .. } => same(*slot, number),
        Act::Cas { slot, .. } => same(*slot, number),
        Act::Add { slot, .. } => same(*slot, number),
        Act::Swap { slot, .. } => same(*slot, number),
        Act::Call {
            slot: Some(slot),
            ..
        } => same(*slot, number),
        Act::If { yes, no, .. } => match set_among(yes.as_slice(), number) {
            Some(slot) => Some(slot),
            None => set_among(no.as_slice(), number),
        },
        Act::While { body, .. } => set_among(body.as_slice(), number),
        Act::Bank { slot } => same(*slot, number),
        _ => None,
    }
}

/// The slot of this number, where one of the statements sets it.
#[cycle(set_in)]
pub fn set_among(stmts: &[Stmt], number: u64) -> Option<u32>
    ensures found { is_some result ≡ list_any (λ slot. slot == number) (stmts_set stmts.now) }
    ensures is { IfSome result (λ slot. slot ≡ number) }
{
    for stmt in stmts {
        if let Some(slot) = set_in(&stmt.act, number) {
            return Some(slot);
        }
    }
    None
}

/// A slot, if it has this number.
fn same(slot: u32, number: u64) -> Option<u32>
    ensures found { is_some result ≡ list_any (λ other. other == number) (slot ∷ []) }
    ensures is { IfSome result (λ slot. slot ≡ number) }
{
    if u64::from(slot) == number {
        Some(slot)
    } else {
        None
    }
}
