//! Tests of what no clause says: that moves are made where there is memory.
use crate::{Machine, Readiness, Stepped};
use fsl_base::{List, Span, Text};
use fsl_choose::Newest;
use fsl_core::{Act, Asrt, Expr, Label, Mode, Proc, Program, Stmt, is_straight};
use fsl_graph::{End, Graph};
use std::alloc::{AllocError, Global};

// The program with this body of `main`, and two variables.
fn program(alloc: Global, acts: Vec<Act>) -> Result<Program, AllocError> {
    let mut body = List::new(alloc);
    for act in acts {
        let span = Span { from: 0, to: 0 };
        body.push(Stmt { span, act })?;
    }
    let name = Text::from_str(alloc, "main")?;
    let mut procs = List::new(alloc);
    procs.push(Proc {
        name,
        params: 0,
        slots: 2,
        banks: List::new(alloc),
        pre: Asrt::Emp,
        post: Asrt::Emp,
        body,
        last: Span { from: 0, to: 0 },
    })?;
    let invs = List::new(alloc);
    Program::new(invs, procs).ok_or(AllocError)
}

// What two steps of a machine do, and how the run ends behind them.
fn two_steps(
    alloc: Global,
    p: Program,
    steps: u32,
) -> Result<Option<(Stepped, Stepped, Option<End>)>, AllocError> {
    if !is_straight(&p) {
        return Ok(None);
    }
    let mut machine = Machine::new(alloc, p, steps)?;
    if machine.ready(0) != Readiness::Ready || machine.threads() != 1 {
        return Ok(None);
    }
    let first = machine.step(0, &mut Newest);
    let second = machine.step(0, &mut Newest);
    Ok(Some((first, second, machine.end())))
}

#[test]
fn steps_through_the_empty_program(rt: HostRuntime) -> Result<(), AllocError> {
    let alloc = rt.alloc();
    let empty = program(alloc, Vec::new(alloc))?;
    let done = Stepped::NotReady {
        why: Readiness::Done,
    };
    assert_eq!(rt;
        two_steps(alloc, empty, 1)?,
        Some((Stepped::Moved, done, Some(End::Finished)))
    );
    Ok(())
}

#[test]
fn stops_at_the_bound(rt: HostRuntime) -> Result<(), AllocError> {
    let alloc = rt.alloc();
    let none = program(alloc, Vec::new(alloc))?;
    assert_eq!(rt;
        two_steps(alloc, none, 0)?,
        Some((Stepped::Spent, Stepped::Spent, Some(End::Spent)))
    );
    let print = program(
        alloc,
        vec![in alloc;
            Act::Print {
                e: Expr::Const { n: 1 }
            },
        ]?,
    )?;
    assert_eq!(rt;
        two_steps(alloc, print, 3)?,
        Some((Stepped::Moved, Stepped::Moved, Some(End::Finished)))
    );
    Ok(())
}

// The graph after so many moves of a cell that is given 7 and loaded.
fn graph_after(alloc: Global, moves: u32) -> Result<Option<Graph>, AllocError> {
    let mode = Mode::Na;
    let acts = vec![in alloc;
        Act::AllocNa { slot: 0 },
        Act::Store {
            mode,
            at: Expr::Var { slot: 0 },
            e: Expr::Const { n: 7 }
        },
        Act::Load {
            slot: 1,
            mode,
            at: Expr::Var { slot: 0 }
        },
    ]?;
    let p = program(alloc, acts)?;
    if !is_straight(&p) {
        return Ok(None);
    }
    let mut machine = Machine::new(alloc, p, moves)?;
    for _move in 0..moves {
        let _stepped = machine.step(0, &mut Newest);
    }
    if machine.end() == Some(End::Spent) {
        Ok(Some(machine.graph()?))
    } else {
        Ok(None)
    }
}

#[test]
fn shows_the_graph_so_far(rt: HostRuntime) -> Result<(), AllocError> {
    let alloc = rt.alloc();
    match graph_after(alloc, 2)? {
        Some(graph) => {
            assert_eq!(rt; graph.events.len(), 2);
            assert_eq!(rt; graph.mo.len(), 1);
        }
        None => assert!(rt; false),
    }
    match graph_after(alloc, 3)? {
        Some(graph) => match graph.events.get(2) {
            Some(event) => {
                assert_eq!(rt; event.from, Some(1));
                assert!(rt; matches!(&event.label, Label::Load { value: 7, .. }));
            }
            None => assert!(rt; false),
        },
        None => assert!(rt; false),
    }
    Ok(())
}
