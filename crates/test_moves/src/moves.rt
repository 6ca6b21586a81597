//! Tests of what no clause says: that moves are made where there is memory.
ghost use Rattle.std.specs.Prelude.{◌≡◌, ◌<◌, length, IfOk};
ghost use Rattle.fsl_moves.specs.Config.{Fits, params_of};
ghost use Rattle.fsl_moves.specs.Moves.{HasNumbers};

use fsl_base::{List, Span, Text};
use fsl_core::{
    Act, Asrt, Called, CmpOp, Cond, Expr, Label, Mode, Need, Part, Proc, Program, Reply, Standing,
    Stmt,
};
use fsl_moves::{Config, advance, next, standing, start};
use std::alloc::{AllocError, Global};

const HERE: Span = Span { from: 0, to: 0 };

fn var(slot: u32) -> Expr {
    Expr::Var { slot }
}

fn number(n: i128) -> Expr {
    Expr::Const { n }
}

// A variable and one more.
fn one_more(alloc: Global, slot: u32) -> Result<Expr, AllocError> {
    let mut parts = List::new(alloc);
    for e in vec![in alloc; var(slot), number(1)]? {
        parts.push(Part { minus: false, e })?;
    }
    Ok(Expr::Sum { parts })
}

fn less(slot: u32, n: i128) -> Cond {
    let op = CmpOp::Lt;
    let l = var(slot);
    let r = number(n);
    Cond::Cmp { op, l, r }
}

fn block(alloc: Global, acts: Vec<Act>) -> Result<List<Stmt>, AllocError> {
    let mut body = List::new(alloc);
    for act in acts {
        body.push(Stmt { span: HERE, act })?;
    }
    Ok(body)
}

// A procedure with four variables.
fn procedure(alloc: Global, name: &str, params: u32, acts: Vec<Act>) -> Result<Proc, AllocError> {
    let body = block(alloc, acts)?;
    let name = Text::from_str(alloc, name)?;
    let banks = List::new(alloc);
    Ok(Proc {
        name,
        params,
        slots: 4,
        banks,
        pre: Asrt::Emp,
        post: Asrt::Emp,
        body,
        last: HERE,
    })
}

// The program with these bodies of `main`, and of a procedure with one parameter.
fn program(alloc: Global, main: Vec<Act>, other: Vec<Act>) -> Result<Program, AllocError> {
    let mut procs = List::new(alloc);
    procs.push(procedure(alloc, "main", 0, main)?)?;
    procs.push(procedure(alloc, "other", 1, other)?)?;
    Program::new(List::new(alloc), procs).ok_or(AllocError)
}

// What a memory answers in which everything is 7, and whose threads return 5.
fn answer(alloc: Global, need: &Need) -> Result<Reply, AllocError>
    ensures { IfOk result (HasNumbers need.now) }
{
    match need {
        Need::Alloc { .. } => Ok(Reply::Place { loc: 1 }),
        Need::Load { .. } | Need::Rmw { .. } => Ok(Reply::Read { value: 7 }),
        Need::Fork { calls } if calls.len() < 9 => Ok(Reply::Threads { first: 1 }),
        Need::Join { children } => {
            let mut values = List::new(alloc);
            for _child in 0..children.len() {
                values.push(5)?;
            }
            Ok(Reply::Results { values })
        }
        _ => Ok(Reply::Nothing),
    }
}

// What was seen of a thread.
#[derive(Clone, Copy, Debug, PartialEq, Eq)]
struct Seen {
    standing: Standing,
    // How many moves had labels, and how many of these wrote by a read-modify-write.
    labels: u32,
    updates: u32,
}

// How the first thread of a program stands after so many moves.
fn after(alloc: Global, p: &Program, moves: u32) -> Result<Seen, AllocError> {
    if p.procs().is_empty() || p.procs()[0].params != 0 {
        return Err(AllocError);
    }
    let mut c = start(alloc, p, 0, &[])?;
    let mut labels = 0;
    let mut updates = 0;
    for _move in 0..moves {
        let reply = answer(alloc, &next(alloc, p, &c)?)?;
        match advance(alloc, p, &mut c, reply)? {
            Some(Label::Rmw { .. }) => {
                labels += 1;
                updates += 1;
            }
            Some(_) => labels += 1,
            None => {}
        }
    }
    let standing = standing(&c);
    Ok(Seen {
        standing,
        labels,
        updates,
    })
}

fn ends(value: i64, labels: u32, updates: u32) -> Seen {
    Seen {
        standing: Standing::Returned { value },
        labels,
        updates,
    }
}

fn returns(slot: u32) -> Act {
    Act::Return { e: var(slot) }
}

// The first block where the first variable is below 1.
fn choosing(alloc: Global, n: i128) -> Result<Program, AllocError> {
    let yes = block(
        alloc,
        vec![in alloc;
            Act::Set {
                slot: 1,
                e: number(5)
            },
        ]?,
    )?;
    let no = block(
        alloc,
        vec![in alloc;
            Act::Set {
                slot: 1,
                e: number(6)
            },
        ]?,
    )?;
    let cond = less(0, 1);
    let main = vec![in alloc;
        Act::Set {
            slot: 0,
            e: number(n)
        },
        Act::Set {
            slot: 1,
            e: number(0)
        },
        Act::If { cond, yes, no },
        returns(1),
    ]?;
    program(alloc, main, Vec::new(alloc))
}

// Two rounds of a loop, each of which prints, and a result.
fn counting(alloc: Global) -> Result<Program, AllocError> {
    let e = one_more(alloc, 0)?;
    let rounds = vec![in alloc; Act::Set { slot: 0, e }, Act::Print { e: var(0) }]?;
    let body = block(alloc, rounds)?;
    let cond = less(0, 2);
    let inv = Asrt::Emp;
    let main = vec![in alloc;
        Act::Set {
            slot: 0,
            e: number(0)
        },
        Act::While { cond, inv, body },
        returns(0),
    ]?;
    program(alloc, main, Vec::new(alloc))
}

fn args_of(alloc: Global, n: i128) -> Result<List<Expr>, AllocError> {
    Ok(List::from_vec(vec![in alloc; number(n)]?))
}

// A procedure that returns one more than its argument, out of a block, is called.
fn calling(alloc: Global) -> Result<Program, AllocError> {
    let e = one_more(alloc, 0)?;
    let yes = block(alloc, vec![in alloc; Act::Return { e }]?)?;
    let no = List::new(alloc);
    let cond = Cond::Yes;
    let other = vec![in alloc; Act::If { cond, yes, no }]?;
    let slot = Some(2);
    let args = args_of(alloc, 41)?;
    let main = vec![in alloc;
        Act::Call {
            slot,
            proc: 1,
            args
        },
        returns(2),
    ]?;
    program(alloc, main, other)
}

// A compare-exchange that expects a number.
fn exchanging(alloc: Global, n: i128) -> Result<Program, AllocError> {
    let main = vec![in alloc;
        Act::Cas {
            slot: 0,
            mode: Mode::AcqRel,
            fail: Mode::Acq,
            at: number(1),
            old: number(n),
            new: number(8),
            steps: List::new(alloc),
        },
        returns(0),
    ]?;
    program(alloc, main, Vec::new(alloc))
}

// A call of the other procedure.
fn call_of(alloc: Global, n: i128) -> Result<Called, AllocError> {
    let args = args_of(alloc, n)?;
    Ok(Called { proc: 1, args })
}

// Two threads are started.
fn forking(alloc: Global) -> Result<Program, AllocError> {
    let mut calls = List::new(alloc);
    calls.push(call_of(alloc, 1)?)?;
    calls.push(call_of(alloc, 2)?)?;
    let main = vec![in alloc; Act::Par { calls }]?;
    program(alloc, main, vec![in alloc; returns(0)]?)
}

#[test]
fn makes_the_moves_of_a_program(rt: HostRuntime) -> Result<(), AllocError> {
    let alloc = rt.alloc();
    assert_eq!(rt; after(alloc, &choosing(alloc, 0)?, 5)?, ends(5, 1, 0));
    assert_eq!(rt; after(alloc, &choosing(alloc, 1)?, 5)?, ends(6, 1, 0));
    assert_eq!(rt; after(alloc, &counting(alloc)?, 9)?, ends(2, 3, 0));
    assert_eq!(rt; after(alloc, &calling(alloc)?, 4)?, ends(42, 1, 0));
    assert_eq!(rt; after(alloc, &exchanging(alloc, 7)?, 2)?, ends(7, 2, 1));
    assert_eq!(rt; after(alloc, &exchanging(alloc, 6)?, 2)?, ends(7, 2, 0));
    let forked = after(alloc, &forking(alloc)?, 1)?;
    let joining = Standing::Joining { first: 1, count: 2 };
    assert_eq!(rt; forked.standing, joining);
    assert_eq!(rt; after(alloc, &forking(alloc)?, 3)?, ends(0, 3, 0));
    Ok(())
}
