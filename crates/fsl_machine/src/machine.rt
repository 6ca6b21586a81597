//! The machine: a program with the moves that its thread has made.
ghost use Rattle.std.specs.Prelude.{◌≡◌, ◌<◌, ◌≤◌, length, IfOk, IfSome, IfNone, IsTrue, if◌then◌else◌};
ghost use Rattle.fsl_core.specs.Straight.{is_straight};
ghost use Rattle.fsl_core.specs.Programs.{Program};
ghost use Rattle.fsl_moves.specs.Config.{config_of};
ghost use Rattle.fsl_graph.specs.Consistent.{IsConsistent};
ghost use Rattle.fsl_graph.specs.Execution.{IsExecution};
ghost use Rattle.fsl_graph.specs.Sequenced.{IsAcyclic};
ghost use Rattle.fsl_graph.specs.Ending.{IsEnd, MayGoOn};
ghost use Rattle.fsl_machine.specs.States.{first_state, need_in};
ghost use Rattle.fsl_machine.specs.Steps.{readiness_of, Steps, IfLimit, asks};

use crate::history::History;
use crate::steps::{Readiness, Stepped};
use crate::turn::{ask, asked, go_on, limit, remember};
use fsl_base::List;
use fsl_choose::Choose;
use fsl_core::{Program, Standing};
use fsl_graph::laws::one_thread;
use fsl_graph::{End, Graph, Thread};
use fsl_moves::{Config, label_of, standing, start};
use std::alloc::{AllocError, Global};
use std::marker::Model;

/// A straight program with the moves that its thread has made.
#[derive(Drop)]
pub struct Machine {
    alloc: Global,
    program: Program,
    bound: u32,
    config: Config,
    moves: u32,
    history: History,
}

impl Model for Machine {
    ghost use Rattle.std.specs.Coded.{codes};
    ghost use Rattle.fsl_core.specs.contracts.act.Stmt as stmt;
    ghost use Rattle.fsl_core.specs.contracts.assertion.Asrt as asrt;
    ghost use Rattle.fsl_moves.specs.Config.{config_of};
    ghost use Rattle.fsl_machine.specs.Machine.{IsRun};
    ghost use Rattle.fsl_machine.specs.States.{State, lone_graph};

    ghost Value = { State };

    ghost coded = { Prim.hlevel (codes, stmt.the_row.coded, asrt.the_row.coded) };

    ghost view = { λ m. record { program = m.program; bound = m.bound; config = config_of m.program m.config; graph = lone_graph m.moves m.history } };

    ghost invariant = { λ m. IsRun m.program m.bound m.config m.moves m.history };
}

impl Machine {
    /// A machine that has made no move of a program, and will make `steps` at most.
    pub fn new(alloc: Global, p: Program, steps: u32) -> Result<Machine, AllocError>
        requires { IsTrue (is_straight p) }
        ensures { IfOk result (λ m. m ≡ first_state p steps) }
    {
        let config = start(alloc, &p, 0, &[])?;
        Ok(Machine {
            alloc,
            program: p,
            bound: steps,
            config,
            moves: 0,
            history: History::new(alloc),
        })
    }

    /// How many threads there are.
    pub fn threads(&self) -> u32
        ensures { result ≡ length self.now.graph.threads }
    {
        let _ = &self.moves;
        1
    }

    /// The program that the machine was made with.
    pub fn program(&self) -> &Program
        ensures { result.now ≡ self.now.program }
    {
        &self.program
    }

    /// The bound on moves that the machine was made with.
    pub fn bound(&self) -> u32
        ensures { result ≡ self.now.bound }
    {
        self.bound
    }

    /// How a thread stands, by its number.
    pub fn ready(&self, thread: u32) -> Readiness
        requires { thread < length self.now.graph.threads }
        ensures { result ≡ readiness_of self.now.config }
    {
        readiness(&self.config)
    }

    /// Makes the next move of a thread, by its number. A read and a write ask for a choice, of which
    /// there is one. The refusals are judged in the order of `Stepped`; each leaves the machine as it was.
    pub fn step<C: Choose>(&mut self, thread: u32, choose: &mut C) -> Stepped
        requires { thread < length self.old.graph.threads }
        ensures step { Steps result self.old self.new }
        ensures limit { IfLimit result (λ kind. IsEnd self.old.program self.old.bound self.old.graph (λ t. self.old.config) (End.Limit kind)) }
        ensures program { self.new.program ≡ self.old.program }
        ensures bound { self.new.bound ≡ self.old.bound }
        ensures threads { length self.old.graph.threads ≤ length self.new.graph.threads }
        ensures choice { choose.new ≡ (if asks result (need_in self.old) then C.rest choose.old 1 else choose.old) }
    {
        let why = readiness(&self.config);
        if why != Readiness::Ready {
            return Stepped::NotReady { why };
        }
        if self.moves == self.bound {
            return Stepped::Spent;
        }
        let need = asked(self.alloc, &self.program, &self.config);
        if let Some(kind) = limit(&need, &self.history) {
            return Stepped::Limit { kind };
        }
        let reply = self.history.answer(&need);
        let Ok(()) = remember(&mut self.history, label_of(&need, &reply)) else {
            return Stepped::NoMemory;
        };
        ask(choose, &need);
        go_on(self.alloc, &self.program, &mut self.config, reply);
        self.moves += 1;
        Stepped::Moved
    }

    /// How the run ends here, `None` where it may go on.
    pub fn end(&self) -> Option<End>
        ensures cause { IfSome result (IsEnd self.now.program self.now.bound self.now.graph (λ t. self.now.config)) }
        ensures none { IfNone result (MayGoOn self.now.bound self.now.graph (λ t. self.now.config)) }
        ensures ready { IfNone result (readiness_of self.now.config ≡ Readiness.Ready) }
    {
        match readiness(&self.config) {
            Readiness::Done => Some(End::Finished),
            Readiness::Halted | Readiness::Failed => Some(End::Halted { thread: 0 }),
            Readiness::Ready if self.moves == self.bound => Some(End::Spent),
            Readiness::Ready => None,
            Readiness::Waiting => unreachable!(),
        }
    }

    /// The graph of the moves so far: an execution of the program, consistent and acyclic.
    pub fn graph(self) -> Result<Graph, AllocError>
        ensures graph { IfOk result (λ g. g ≡ self.graph) }
        ensures execution { IfOk result (λ g. IsExecution self.program g (λ t. self.config)) }
        ensures consistent { IfOk result IsConsistent }
        ensures acyclic { IfOk result IsAcyclic }
    {
        one_thread();
        let mut threads = List::new(self.alloc);
        threads.push(Thread {
            proc: 0,
            args: List::new(self.alloc),
            moves: self.moves,
        })?;
        Ok(self.history.graph(threads))
    }
}

/// How the thread of a straight program stands.
fn readiness(c: &Config) -> Readiness
    ensures { (p : Program) → readiness_of (config_of p c.now) ≡ result }
{
    match standing(c) {
        Standing::Going => Readiness::Ready,
        Standing::Joining { .. } => Readiness::Waiting,
        Standing::Returned { .. } => Readiness::Done,
        Standing::Halted => Readiness::Halted,
        Standing::Failed => Readiness::Failed,
    }
}
