//! Copies and equality of a program that has one of everything.
use crate::building::{Slots, at, constant, equal, one, procedure, variable};
use fsl_base::{Boxed, List, Text};
use fsl_core::{
    Act, Asrt, Called, CmpOp, Cond, Expr, Inst, Inv, Mode, Part, Pat, Proc, Program, Step, Stmt,
};
use std::alloc::{AllocError, Global};

fn inst(alloc: Global) -> Result<Inst, AllocError> {
    let args = one(alloc, constant(1))?;
    Ok(Inst { inv: 0, args })
}

fn condition() -> Cond {
    Cond::Cmp {
        op: CmpOp::Le,
        l: constant(1),
        r: variable(0),
    }
}

// An expression of every kind, for the `ensures` of a procedure with a parameter.
fn expression(alloc: Global) -> Result<Expr, AllocError> {
    let mut parts = List::new(alloc);
    parts.push(Part {
        minus: false,
        e: Expr::Result_,
    })?;
    let e = Boxed::new(alloc, constant(2))?;
    parts.push(Part {
        minus: true,
        e: Expr::Neg { e },
    })?;
    let factors = one(alloc, variable(0))?;
    parts.push(Part {
        minus: false,
        e: Expr::Product { parts: factors },
    })?;
    Ok(Expr::Sum { parts })
}

fn add_memory_assertions(alloc: Global, to: &mut List<Asrt>) -> Result<(), AllocError> {
    to.push(Asrt::Emp)?;
    to.push(Asrt::Fact { cond: condition() })?;
    for pat in [Pat::Any, Pat::Bind { slot: 2 }, Pat::Is { e: constant(3) }] {
        let at = constant(1);
        let share = constant(2);
        to.push(Asrt::Points { at, share, pat })?;
    }
    to.push(Asrt::Init { at: constant(1) })?;
    let inst = inst(alloc)?;
    to.push(Asrt::Rel {
        at: constant(1),
        inst,
    })
}

fn add_leaves_and_tokens(alloc: Global, to: &mut List<Asrt>, n: i128) -> Result<(), AllocError> {
    let first = inst(alloc)?;
    let out = one(alloc, constant(n))?;
    to.push(Asrt::Acq {
        at: constant(1),
        inst: first,
        part: 0,
        out,
    })?;
    let second = inst(alloc)?;
    to.push(Asrt::RmwAcq {
        at: constant(1),
        inst: second,
    })?;
    to.push(Asrt::Tok {
        bank: 0,
        n: constant(1),
    })?;
    to.push(Asrt::Auth {
        bank: 0,
        n: constant(1),
    })
}

fn add_choice(alloc: Global, to: &mut List<Asrt>) -> Result<(), AllocError> {
    let yes = Boxed::new(alloc, Asrt::Emp)?;
    let no = Boxed::new(alloc, Asrt::Init { at: constant(1) })?;
    to.push(Asrt::Choice {
        cond: condition(),
        yes,
        no,
    })
}

// An assertion with one of every kind without modalities, and the number `n` in it.
fn assertion(alloc: Global, n: i128) -> Result<Asrt, AllocError> {
    let mut parts = List::new(alloc);
    add_memory_assertions(alloc, &mut parts)?;
    add_leaves_and_tokens(alloc, &mut parts, n)?;
    add_choice(alloc, &mut parts)?;
    Ok(Asrt::Both { parts })
}

// An assertion with both modalities.
fn modalities(alloc: Global) -> Result<Asrt, AllocError> {
    let a = Boxed::new(alloc, Asrt::Emp)?;
    let mut parts = one(alloc, Asrt::Up { a })?;
    let a = Boxed::new(alloc, Asrt::Emp)?;
    parts.push(Asrt::Down { a })?;
    Ok(Asrt::Both { parts })
}

fn token_step() -> Step {
    Step {
        mint: true,
        bank: 2,
        n: constant(1),
    }
}

fn add_accesses(alloc: Global, to: &mut List<Stmt>) -> Result<(), AllocError> {
    to.push(at(Act::Set {
        slot: 0,
        e: constant(1),
    }))?;
    to.push(at(Act::Bank { slot: 2 }))?;
    to.push(at(Act::AllocNa { slot: 1 }))?;
    let inst = inst(alloc)?;
    to.push(at(Act::AllocAt {
        slot: 1,
        rmw: true,
        inst,
    }))?;
    to.push(at(Act::Free { at: constant(1) }))?;
    to.push(at(Act::Load {
        slot: 1,
        mode: Mode::Acq,
        at: constant(1),
    }))?;
    to.push(at(Act::Store {
        mode: Mode::Rel,
        at: constant(1),
        e: constant(2),
    }))
}

fn add_rmws(alloc: Global, to: &mut List<Stmt>) -> Result<(), AllocError> {
    let steps = one(alloc, token_step())?;
    to.push(at(Act::Cas {
        slot: 1,
        mode: Mode::AcqRel,
        fail: Mode::Rlx,
        at: constant(1),
        old: constant(2),
        new: constant(3),
        steps,
    }))?;
    let steps = one(alloc, token_step())?;
    to.push(at(Act::Add {
        slot: 1,
        mode: Mode::Rlx,
        at: constant(1),
        e: constant(2),
        steps,
    }))?;
    let steps = one(alloc, token_step())?;
    to.push(at(Act::Swap {
        slot: 1,
        mode: Mode::Rlx,
        at: constant(1),
        e: constant(2),
        steps,
    }))
}

fn add_calls(alloc: Global, to: &mut List<Stmt>) -> Result<(), AllocError> {
    let args = one(alloc, constant(1))?;
    to.push(at(Act::Call {
        slot: Some(1),
        proc: 1,
        args,
    }))?;
    let args = one(alloc, constant(1))?;
    let mut calls = one(alloc, Called { proc: 1, args })?;
    let args = one(alloc, constant(2))?;
    calls.push(Called { proc: 1, args })?;
    to.push(at(Act::Par { calls }))?;
    to.push(at(Act::Fence {
        mode: Mode::Rel,
        asrt: Asrt::Emp,
    }))?;
    to.push(at(Act::Step { step: token_step() }))
}

fn add_control(alloc: Global, to: &mut List<Stmt>) -> Result<(), AllocError> {
    let yes = one(alloc, at(Act::Print { e: constant(1) }))?;
    let no = one(alloc, at(Act::Print { e: variable(0) }))?;
    to.push(at(Act::If {
        cond: condition(),
        yes,
        no,
    }))?;
    let body = one(alloc, at(Act::Assert { cond: Cond::Yes }))?;
    to.push(at(Act::While {
        cond: Cond::No,
        inv: Asrt::Emp,
        body,
    }))?;
    to.push(at(Act::Return { e: constant(1) }))
}

fn body(alloc: Global) -> Result<List<Stmt>, AllocError> {
    let mut body = List::new(alloc);
    add_accesses(alloc, &mut body)?;
    add_rmws(alloc, &mut body)?;
    add_calls(alloc, &mut body)?;
    add_control(alloc, &mut body)?;
    Ok(body)
}

fn invariant(alloc: Global, n: i128) -> Result<Inv, AllocError> {
    let name = Text::from_str(alloc, "lock")?;
    let asrt = assertion(alloc, n)?;
    let parts = one(alloc, asrt)?;
    Ok(Inv {
        name,
        params: 1,
        slots: 3,
        parts,
    })
}

// `main` and what it calls have three variables, the last of which is a bank.
fn slots(params: u32) -> Slots {
    Slots {
        params,
        all: 3,
        banks: &[2],
    }
}

fn main_procedure(alloc: Global) -> Result<Proc, AllocError> {
    let post = modalities(alloc)?;
    let body = body(alloc)?;
    procedure(alloc, "main", slots(0), Asrt::Emp, post, body)
}

// What `main` calls.
fn child(alloc: Global) -> Result<Proc, AllocError> {
    let e = expression(alloc)?;
    let post = Asrt::Fact {
        cond: equal(e, constant(0)),
    };
    procedure(alloc, "child", slots(1), Asrt::Emp, post, List::new(alloc))
}

fn procedures(alloc: Global) -> Result<List<Proc>, AllocError> {
    let main = main_procedure(alloc)?;
    let mut procs = one(alloc, main)?;
    let child = child(alloc)?;
    procs.push(child)?;
    Ok(procs)
}

// A program with one of every kind of statement and assertion, and the number `n` in its invariant.
fn program(alloc: Global, n: i128) -> Result<Option<Program>, AllocError> {
    let inv = invariant(alloc, n)?;
    let invs = one(alloc, inv)?;
    let procs = procedures(alloc)?;
    Ok(Program::new(invs, procs))
}

#[test]
fn a_copy_is_the_same_as_its_program_alone(rt: HostRuntime) -> Result<(), AllocError> {
    let alloc = rt.alloc();
    let first = program(alloc, 1)?.expect(&rt, "well formed");
    let second = program(alloc, 2)?.expect(&rt, "well formed");
    let copy = first.copy(alloc)?;
    assert!(rt; copy.same(&first));
    assert!(rt; !copy.same(&second));
    Ok(())
}
