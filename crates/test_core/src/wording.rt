//! Assertions and statements of few words, for tables.
use crate::building::{at, constant, equal, one, variable};
use fsl_base::{Boxed, List};
use fsl_core::{Act, Asrt, Called, Cond, Expr, Mode, Pat, Step, Stmt};
use std::alloc::{AllocError, Global};

/// An assertion of few words. A number is a variable.
#[derive(Clone, Copy)]
pub enum Atom {
    /// A cell, whose value is bound.
    Binds(u32),
    /// The variable is 1.
    Is(u32),
    /// The result is 1.
    Outcome,
    /// Tokens of a bank.
    Tokens(u32),
    /// A cell whose value is bound, in one arm of a choice.
    Arm(u32),
    /// The same in a modality.
    Up(u32),
}

/// A statement of few words. A number is a variable.
#[derive(Clone, Copy)]
pub enum Line {
    Set(u32),
    Print(u32),
    /// Prints the result of the procedure.
    Outcome,
    /// Asserts that two variables are equal.
    Same(u32, u32),
    Bank(u32),
    Mint(u32),
    /// Calls a procedure with one argument.
    Give(u32, u32),
    /// So many calls as threads.
    Par(u32),
    /// Sets a cell apart whose value is bound.
    Fence(u32),
    Return,
}

fn cell(slot: u32) -> Asrt {
    Asrt::Points {
        at: constant(1),
        share: constant(1),
        pat: Pat::Bind { slot },
    }
}

fn fact(e: Expr) -> Asrt {
    Asrt::Fact {
        cond: equal(e, constant(1)),
    }
}

fn said(alloc: Global, word: Atom) -> Result<Asrt, AllocError> {
    match word {
        Atom::Binds(slot) => Ok(cell(slot)),
        Atom::Is(slot) => Ok(fact(variable(slot))),
        Atom::Outcome => Ok(fact(Expr::Result_)),
        Atom::Tokens(bank) => Ok(Asrt::Tok {
            bank,
            n: constant(1),
        }),
        Atom::Arm(slot) => {
            let yes = Boxed::new(alloc, cell(slot))?;
            let no = Boxed::new(alloc, Asrt::Emp)?;
            let cond = Cond::Yes;
            Ok(Asrt::Choice { cond, yes, no })
        }
        Atom::Up(slot) => {
            let a = Boxed::new(alloc, cell(slot))?;
            Ok(Asrt::Up { a })
        }
    }
}

/// Several words, none of which means `emp`.
pub fn assertion(alloc: Global, words: &[Atom]) -> Result<Asrt, AllocError> {
    if words.is_empty() {
        return Ok(Asrt::Emp);
    }
    let mut parts = List::new(alloc);
    for word in words {
        parts.push(said(alloc, *word)?)?;
    }
    Ok(Asrt::Both { parts })
}

fn calls(alloc: Global, count: u32) -> Result<List<Called>, AllocError> {
    let mut calls = List::new(alloc);
    for _call in 0..count {
        let args = one(alloc, constant(1))?;
        calls.push(Called { proc: 1, args })?;
    }
    Ok(calls)
}

fn act(alloc: Global, line: Line) -> Result<Act, AllocError> {
    match line {
        Line::Set(slot) => Ok(Act::Set {
            slot,
            e: constant(1),
        }),
        Line::Print(slot) => Ok(Act::Print { e: variable(slot) }),
        Line::Outcome => Ok(Act::Print { e: Expr::Result_ }),
        Line::Same(one, other) => Ok(Act::Assert {
            cond: equal(variable(one), variable(other)),
        }),
        Line::Bank(slot) => Ok(Act::Bank { slot }),
        Line::Mint(bank) => Ok(Act::Step {
            step: Step {
                mint: true,
                bank,
                n: constant(1),
            },
        }),
        Line::Give(proc, slot) => Ok(Act::Call {
            slot: None,
            proc,
            args: one(alloc, variable(slot))?,
        }),
        Line::Par(count) => Ok(Act::Par {
            calls: calls(alloc, count)?,
        }),
        Line::Fence(slot) => Ok(Act::Fence {
            mode: Mode::Rel,
            asrt: cell(slot),
        }),
        Line::Return => Ok(Act::Return { e: constant(1) }),
    }
}

/// Statements behind those that are there.
pub fn add_lines(alloc: Global, to: &mut List<Stmt>, lines: &[Line]) -> Result<(), AllocError> {
    for line in lines {
        to.push(at(act(alloc, *line)?))?;
    }
    Ok(())
}
