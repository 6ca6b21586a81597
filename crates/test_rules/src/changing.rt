//! A procedure of one text among the declarations of another, changed in ways that no text could say.
use fsl_base::{Boxed, List, Span, Text, TryClone};
use fsl_core::{Act, Asrt, Cond, Inv, Mode, Proc, Program, Stmt};
use std::alloc::{AllocError, Global};
use std::mem;

/// What is changed in a procedure.
#[derive(Clone, Copy, Debug, PartialEq, Eq)]
pub enum Change {
    Kept,
    /// It is called `main`, and no other stands beside it.
    Main,
    /// Its `requires` is one more part of the last invariant.
    Part,
    /// Its `requires` is what a fence sets apart.
    Fence,
    /// Its `requires` is the invariant of a loop.
    Loop,
    /// Its `requires` stands in a modality.
    Up,
    Down,
    /// Its one access or fence has this mode.
    Mode(Mode),
    /// The failing read of its `cas` has this mode.
    Miss(Mode),
}

/// A body of one statement.
fn body_of(alloc: Global, span: Span, act: Act) -> Result<List<Stmt>, AllocError> {
    let mut body = List::new(alloc);
    body.push(Stmt { span, act })?;
    Ok(body)
}

/// An assertion in a modality.
fn modal(alloc: Global, a: Asrt, up: bool) -> Result<Asrt, AllocError> {
    let a = Boxed::new(alloc, a)?;
    Ok(if up { Asrt::Up { a } } else { Asrt::Down { a } })
}

/// A loop with an invariant, or a fence that sets something apart.
fn act_with(alloc: Global, asrt: Asrt, change: Change) -> Act {
    match change {
        Change::Loop => Act::While {
            cond: Cond::Yes,
            inv: asrt,
            body: List::new(alloc),
        },
        _ => Act::Fence {
            mode: Mode::Rel,
            asrt,
        },
    }
}

/// Puts the `requires` of a procedure at another place.
fn put_requires(alloc: Global, proc: &mut Proc, change: Change) -> Result<(), AllocError> {
    let asrt = mem::replace(&mut proc.pre, Asrt::Emp);
    match change {
        Change::Up => proc.pre = modal(alloc, asrt, true)?,
        Change::Down => proc.pre = modal(alloc, asrt, false)?,
        _ => proc.body = body_of(alloc, proc.last, act_with(alloc, asrt, change))?,
    }
    Ok(())
}

/// Gives an act another mode.
fn set_mode(act: &mut Act, to: Mode) {
    match act {
        Act::Load { mode, .. } => *mode = to,
        Act::Store { mode, .. } => *mode = to,
        Act::Cas { mode, .. } => *mode = to,
        Act::Add { mode, .. } => *mode = to,
        Act::Swap { mode, .. } => *mode = to,
        Act::Fence { mode, .. } => *mode = to,
        _ => (),
    }
}

/// Gives the failing read of a `cas` another mode.
fn set_miss(act: &mut Act, to: Mode) {
    match act {
        Act::Cas { fail, .. } => *fail = to,
        _ => (),
    }
}

/// Gives the last statement of a body another mode.
fn put_mode(body: &mut List<Stmt>, mode: Mode, is_miss: bool) -> Result<(), AllocError> {
    let Some(mut stmt) = body.pop() else {
        return Ok(());
    };
    if is_miss {
        set_miss(&mut stmt.act, mode);
    } else {
        set_mode(&mut stmt.act, mode);
    }
    body.push(stmt)
}

/// Makes a change.
fn put(alloc: Global, proc: &mut Proc, change: Change) -> Result<(), AllocError> {
    match change {
        Change::Kept | Change::Part => Ok(()),
        Change::Main => {
            proc.name = Text::from_str(alloc, "main")?;
            Ok(())
        }
        Change::Mode(mode) => put_mode(&mut proc.body, mode, false),
        Change::Miss(mode) => put_mode(&mut proc.body, mode, true),
        _ => put_requires(alloc, proc, change),
    }
}

/// Invariants, of which the last has one more part.
fn with_part(alloc: Global, invs: List<Inv>, part: &Asrt) -> Result<List<Inv>, AllocError> {
    let mut invs = invs;
    if let Some(mut last) = invs.pop() {
        last.parts.push(part.try_clone(alloc)?)?;
        invs.push(last)?;
    }
    Ok(invs)
}

/// The invariants of a program.
pub fn invariants(alloc: Global, p: &Program) -> Result<List<Inv>, AllocError> {
    let mut invs = List::new(alloc);
    for inv in p.invs() {
        invs.push(inv.try_clone(alloc)?)?;
    }
    Ok(invs)
}

/// The procedures of a program from a number on, behind others.
pub fn procedures(
    alloc: Global,
    first: List<Proc>,
    p: &Program,
    from: usize,
) -> Result<List<Proc>, AllocError> {
    let mut procs = first;
    for (number, proc) in p.procs().iter().enumerate() {
        if number >= from {
            procs.push(proc.try_clone(alloc)?)?;
        }
    }
    Ok(procs)
}

/// The invariants of a program, as a change of a procedure has them.
fn changed_invariants(
    alloc: Global,
    p: &Program,
    proc: &Proc,
    change: Change,
) -> Result<List<Inv>, AllocError> {
    let invs = invariants(alloc, p)?;
    if change == Change::Part {
        with_part(alloc, invs, &proc.pre)
    } else {
        Ok(invs)
    }
}

/// The procedures of a program, with a changed one in the place of the first.
fn changed_procedures(
    alloc: Global,
    p: &Program,
    proc: &Proc,
    change: Change,
) -> Result<List<Proc>, AllocError> {
    let mut proc = proc.try_clone(alloc)?;
    put(alloc, &mut proc, change)?;
    let mut procs = List::new(alloc);
    procs.push(proc)?;
    if change == Change::Main {
        return Ok(procs);
    }
    procedures(alloc, procs, p, 1)
}

/// Whether a changed procedure in the place of a program's first one gives a program.
pub fn is_program(
    alloc: Global,
    p: &Program,
    proc: &Proc,
    change: Change,
) -> Result<bool, AllocError> {
    let invs = changed_invariants(alloc, p, proc, change)?;
    let procs = changed_procedures(alloc, p, proc, change)?;
    Ok(Program::new(invs, procs).is_some())
}
