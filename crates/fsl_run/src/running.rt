//! A run from its first move to its end.
ghost use Rattle.std.specs.Prelude.{◌≡◌, ◌<◌, length, IfOk, IsTrue};
ghost use Rattle.fsl_core.specs.Straight.{is_straight};
ghost use Rattle.fsl_graph.specs.Ending.{IsEnd};
ghost use Rattle.fsl_run.specs.Running.{IsRunOf};

use fsl_base::{Gate, Spot};
use fsl_choose::{Choose, Newest, Seeded};
use fsl_core::Program;
use fsl_graph::{End, Graph};
use fsl_machine::{Machine, Stepped};
use std::alloc::{AllocError, Global};

/// How a program is run.
#[derive(Clone, Copy, Debug, PartialEq, Eq)]
pub struct RunWords {
    /// 1 to 64.
    pub workers: u32,
    /// The seed of the choices; without one, the newest message is chosen.
    pub seed: Option<u32>,
    /// The bound on the moves of all threads, 1 to 1000000.
    pub steps: u32,
}

/// A run: its graph and how it ended.
#[derive(Drop)]
pub struct Ran {
    /// The moves that were made.
    pub graph: Graph,
    /// Its cause stands in the graph.
    pub end: End,
}

/// Runs a program until it ends, meets a limit or has made `steps` moves. The gate is called before each move.
pub fn run<G: Gate>(alloc: Global, p: Program, how: RunWords, gate: &G) -> Result<Ran, AllocError>
    requires { IsTrue (is_straight p) }
    ensures { IfOk result (λ ran. IsRunOf p how.steps ran.graph ran.end) }
{
    let machine = Machine::new(alloc, p, how.steps)?;
    match how.seed {
        Some(seed) => finish(machine, &mut Seeded::new(seed, 0), gate),
        None => finish(machine, &mut Newest, gate),
    }
}

/// Makes moves until the run ends.
#[tactic(auto, using(crate::proofs::RunningLemmas::moves_one_more, crate::proofs::RunningLemmas::length_one_more, crate::proofs::RunningLemmas::not_refused, crate::proofs::RunningLemmas::not_spent))]
fn finish<C: Choose, G: Gate>(machine: Machine, choose: &mut C, gate: &G) -> Result<Ran, AllocError>
    requires { 0 < length machine.graph.threads }
    ensures { IfOk result (λ ran. IsRunOf machine.program machine.bound ran.graph ran.end) }
{
    let mut machine = machine;
    loop {
        if let Some(end) = machine.end() {
            return ended(machine, end);
        }
        gate.before(Spot::Move { thread: 0 });
        match machine.step(0, choose) {
            Stepped::Moved => {}
            Stepped::Limit { kind } => return ended(machine, End::Limit { kind }),
            Stepped::NoMemory => return Err(AllocError),
            Stepped::NotReady { .. } | Stepped::Spent => unreachable!(),
        }
    }
}

/// The run of a machine that has come to an end.
fn ended(machine: Machine, end: End) -> Result<Ran, AllocError>
    requires { IsEnd machine.program machine.bound machine.graph (λ t. machine.config) end }
    ensures { IfOk result (λ ran. IsRunOf machine.program machine.bound ran.graph ran.end) }
{
    Ok(Ran {
        graph: machine.graph()?,
        end,
    })
}
