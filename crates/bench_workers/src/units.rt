//! One procedure judged again and again, each time as a unit of its own; and units without work.
ghost use Rattle.std.specs.Prelude.{◌≡◌, ◌≤◌, ◌<◌, Some, length, slice_get, option_map, replicate};
ghost use Rattle.fsl_core.specs.declared.verdict.Outcome.TheVariants.{Derived};
ghost use Rattle.fsl_core.specs.logic.Verdicts.{outcome_of};
ghost use Rattle.fsl_sound.specs.Supported.{IsSupported};

use fsl_base::OpenGate;
use fsl_check::{Work, check_all};
use fsl_core::{Outcome, Program, Verdict};
use fsl_flow::{is_supported, outcome};
use std::alloc::{AllocError, Global};
use std::thread::Threads;

/// The first procedure of a program, as often as there are units.
#[derive(Clone, Copy)]
struct Repeated<'a> {
    program: &'a Program,
    units: u32,
    known: Outcome,
    ghost supported: { IsSupported program.now },
    ghost some: { 0 < length program.now.procs },
    ghost known_so: { option_map (outcome_of program.now 0) (slice_get program.now.procs 0) ≡ Some known },
}

impl<'a> Work for Repeated<'a> {
    ghost outcomes = { λ work. replicate work.units work.known };

    fn units(&self) -> u32 {
        self.units
    }

    fn outcome(&self, alloc: Global, _unit: u32) -> Result<Outcome, AllocError> {
        outcome(alloc, self.program, 0)
    }
}

/// Units without work.
#[derive(Clone, Copy)]
pub struct Idle {
    pub units: u32,
}

impl Work for Idle {
    ghost outcomes = { λ work. replicate work.units (Derived 1) };

    fn units(&self) -> u32 {
        self.units
    }

    fn outcome(&self, _alloc: Global, _unit: u32) -> Result<Outcome, AllocError> {
        Ok(Outcome::Derived { paths: 1 })
    }
}

/// The verdict on a program whose first procedure is judged as many times as there are units.
pub fn judged<R: Threads + Sync>(
    rt: &R,
    alloc: Global,
    program: &Program,
    units: u32,
    workers: u32,
) -> Result<Verdict, AllocError>
    requires { (1 ≤ workers) × (workers ≤ 64) }
{
    if !is_supported(program) || program.procs().is_empty() {
        return Err(AllocError);
    }
    let known = outcome(alloc, program, 0)?;
    check_all(
        rt,
        alloc,
        &Repeated {
            program,
            units,
            known,
        },
        workers,
        &OpenGate,
    )
}
