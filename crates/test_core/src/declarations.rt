//! Contracts and invariants that break one rule of scopes each, and the same mended: the mended ones alone give a
//! program. Which `main` is started.
use crate::building::{Slots, one, plain, procedure};
use crate::wording::Atom::{Arm, Binds, Is, Tokens, Up};
use crate::wording::Line::{Mint, Print, Set};
use crate::wording::{Atom, Line, add_lines, assertion};
use fsl_base::{List, Text};
use fsl_core::{Inv, Proc, Program};
use std::alloc::{AllocError, Global};
use std::test::Fail;

/// How many parameters and variables a procedure has, and which of them are banks.
type Counts = (u32, u32, &'static [u32]);

/// What a procedure shows, its variables, `requires`, `ensures` and body, and whether it gives a program.
type Contract = (
    &'static str,
    Counts,
    &'static [Atom],
    &'static [Atom],
    &'static [Line],
    bool,
);

/// What an invariant shows, its parameters, variables and part, and whether it gives a program.
type Invariant = (&'static str, u32, u32, &'static [Atom], bool);

/// Procedures beside a `main`.
const CONTRACTS: [Contract; 28] = [
    (
        "a parameter is read",
        (1, 1, &[]),
        &[Is(0)],
        &[Is(0)],
        &[Print(0)],
        true,
    ),
    (
        "a parameter is set",
        (1, 1, &[]),
        &[],
        &[],
        &[Set(0)],
        false,
    ),
    (
        "a binder is seen in the contract",
        (0, 2, &[]),
        &[Binds(0), Is(0)],
        &[Is(0)],
        &[Set(1), Print(1)],
        true,
    ),
    (
        "it is read in the body",
        (0, 2, &[]),
        &[Binds(0)],
        &[],
        &[Print(0)],
        false,
    ),
    (
        "it is set in the body",
        (0, 2, &[]),
        &[Binds(0)],
        &[],
        &[Set(0)],
        false,
    ),
    (
        "it is bound twice",
        (0, 2, &[]),
        &[Binds(0), Binds(0)],
        &[],
        &[],
        false,
    ),
    (
        "it is bound again in ensures",
        (0, 2, &[]),
        &[Binds(0)],
        &[Binds(0)],
        &[],
        false,
    ),
    (
        "it is read in front",
        (0, 2, &[]),
        &[Is(0), Binds(0)],
        &[],
        &[],
        false,
    ),
    (
        "two binders",
        (0, 2, &[]),
        &[Binds(0), Binds(1)],
        &[Is(1)],
        &[],
        true,
    ),
    (
        "a parameter is bound",
        (1, 2, &[]),
        &[Binds(0)],
        &[],
        &[],
        false,
    ),
    (
        "a binder of ensures",
        (0, 2, &[]),
        &[],
        &[Binds(0), Is(0)],
        &[],
        true,
    ),
    (
        "it is read in the body",
        (0, 2, &[]),
        &[],
        &[Binds(0)],
        &[Print(0)],
        false,
    ),
    ("a binder of an arm", (0, 2, &[]), &[Arm(0)], &[], &[], true),
    (
        "it is read behind the arm",
        (0, 2, &[]),
        &[Arm(0), Is(0)],
        &[],
        &[],
        false,
    ),
    (
        "it is read in ensures",
        (0, 2, &[]),
        &[Arm(0)],
        &[Is(0)],
        &[],
        false,
    ),
    (
        "a binder of a modality",
        (0, 2, &[]),
        &[Up(0)],
        &[],
        &[],
        true,
    ),
    (
        "it is read behind the modality",
        (0, 2, &[]),
        &[Up(0), Is(0)],
        &[],
        &[],
        false,
    ),
    (
        "the result in ensures",
        (0, 0, &[]),
        &[],
        &[Atom::Outcome],
        &[],
        true,
    ),
    (
        "the result in requires",
        (0, 0, &[]),
        &[Atom::Outcome],
        &[],
        &[],
        false,
    ),
    (
        "tokens of a bank",
        (1, 1, &[0]),
        &[Tokens(0)],
        &[Tokens(0)],
        &[Mint(0)],
        true,
    ),
    (
        "tokens of a number",
        (1, 1, &[]),
        &[Tokens(0)],
        &[],
        &[],
        false,
    ),
    (
        "a bank is compared",
        (1, 1, &[0]),
        &[Is(0)],
        &[],
        &[],
        false,
    ),
    (
        "a bank is printed",
        (1, 1, &[0]),
        &[],
        &[],
        &[Print(0)],
        false,
    ),
    ("a bank is set", (1, 1, &[0]), &[], &[], &[Set(0)], false),
    (
        "more parameters than variables",
        (2, 1, &[]),
        &[],
        &[],
        &[],
        false,
    ),
    (
        "more banks than variables",
        (1, 1, &[0, 0]),
        &[],
        &[],
        &[],
        false,
    ),
    (
        "as many variables as may be",
        (1, 256, &[]),
        &[],
        &[],
        &[Set(255)],
        true,
    ),
    ("one variable more", (1, 257, &[]), &[], &[], &[], false),
];

/// Invariants beside a `main`.
const INVARIANTS: [Invariant; 11] = [
    (
        "a parameter and the value are read",
        1,
        2,
        &[Is(0), Is(1)],
        true,
    ),
    ("a parameter has tokens", 1, 2, &[Tokens(0)], true),
    ("the value has tokens", 1, 2, &[Tokens(1)], false),
    ("the value is bound", 1, 2, &[Binds(1)], false),
    ("a binder", 1, 3, &[Binds(2), Is(2)], true),
    ("it is bound nowhere", 1, 3, &[Is(2)], false),
    ("it is no variable", 1, 2, &[Binds(2)], false),
    ("no place for the value", 1, 1, &[], false),
    ("as many variables as may be", 1, 256, &[], true),
    ("one variable more", 1, 257, &[], false),
    ("the result", 0, 1, &[Atom::Outcome], false),
];

/// Numbers of parameters, of procedures that all are named `main`; and whether they give a program.
const MAINS: [(&[u32], bool); 6] = [
    (&[0], true),
    (&[], false),
    (&[1], false),
    (&[1, 0], false),
    (&[0, 1], true),
    (&[0, 0], true),
];

/// A `main` that does nothing.
fn idle(alloc: Global, params: u32) -> Result<Proc, AllocError> {
    let slots = Slots {
        params,
        all: params,
        banks: &[],
    };
    plain(alloc, "main", slots, List::new(alloc))
}

fn is_contract(
    alloc: Global,
    slots: Slots,
    pre: &[Atom],
    post: &[Atom],
    lines: &[Line],
) -> Result<bool, AllocError> {
    let mut body = List::new(alloc);
    add_lines(alloc, &mut body, lines)?;
    let pre = assertion(alloc, pre)?;
    let post = assertion(alloc, post)?;
    let proc = procedure(alloc, "f", slots, pre, post, body)?;
    let mut procs = one(alloc, proc)?;
    procs.push(idle(alloc, 0)?)?;
    Ok(Program::new(List::new(alloc), procs).is_some())
}

/// An invariant of one part.
fn invariant(alloc: Global, params: u32, slots: u32, part: &[Atom]) -> Result<Inv, AllocError> {
    let name = Text::from_str(alloc, "lock")?;
    let parts = one(alloc, assertion(alloc, part)?)?;
    Ok(Inv {
        name,
        params,
        slots,
        parts,
    })
}

/// Whether an invariant is one of a program.
fn is_invariant(alloc: Global, inv: Inv) -> Result<bool, AllocError> {
    let invs = one(alloc, inv)?;
    let procs = one(alloc, idle(alloc, 0)?)?;
    Ok(Program::new(invs, procs).is_some())
}

/// Whether procedures that are named `main` give a program.
fn are_mains(alloc: Global, params: &[u32]) -> Result<bool, AllocError> {
    let mut procs = List::new(alloc);
    for count in params {
        procs.push(idle(alloc, *count)?)?;
    }
    Ok(Program::new(List::new(alloc), procs).is_some())
}

#[test]
fn contracts_are_scoped(rt: HostRuntime) -> Result<(), Fail> {
    for (says, (params, all, banks), pre, post, lines, wanted) in CONTRACTS {
        let slots = Slots { params, all, banks };
        assert_eq!(rt;
            is_contract(rt.alloc(), slots, pre, post, lines)?,
            wanted,
            "{says}"
        );
    }
    Ok(())
}

#[test]
fn invariants_are_scoped(rt: HostRuntime) -> Result<(), Fail> {
    let alloc = rt.alloc();
    for (says, params, slots, part, wanted) in INVARIANTS {
        let inv = invariant(alloc, params, slots, part)?;
        assert_eq!(rt; is_invariant(alloc, inv)?, wanted, "{says}");
    }
    Ok(())
}

#[test]
fn the_first_main_is_started(rt: HostRuntime) -> Result<(), Fail> {
    for (params, wanted) in MAINS {
        assert_eq!(rt; are_mains(rt.alloc(), params)?, wanted);
    }
    Ok(())
}
