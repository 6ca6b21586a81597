//! The verdict on a program, its procedures on several workers.
ghost use Rattle.std.specs.Prelude.{◌≡◌, ◌≤◌, ◌<◌, IfOk, IsTrue, length, slice_get, Some};
ghost use Rattle.fsl_core.specs.logic.Paths.{ends_of};
ghost use Rattle.fsl_core.specs.logic.Verdicts.{outcomes, verdict_of};
ghost use Rattle.fsl_flow.specs.Supported.{is_supported};
ghost use Rattle.fsl_sound.specs.Judged.{IsJudged};
ghost use Rattle.fsl_sound.specs.Supported.{IsSupported};

use fsl_base::Gate;
use fsl_check::{Work, check_all};
use fsl_core::laws::programs_are_well_formed;
use fsl_core::{Outcome, Program, Verdict};
use fsl_flow::outcome;
use std::alloc::{AllocError, Global};
use std::thread::Threads;

/// The procedures of a program that the rules support, each a unit of work.
#[derive(Clone, Copy)]
struct Procedures<'a> {
    program: &'a Program,
    count: u32,
    ghost supported: { IsSupported program.now },
    ghost counted: { count ≡ length program.now.procs },
}

impl<'a> Work for Procedures<'a> {
    ghost outcomes = { λ work. outcomes (ends_of work.program.now) 0 work.program.now.procs };

    #[tactic(auto, using(crate::proofs::Procedures::as_many))]
    fn units(&self) -> u32 {
        self.count
    }

    #[tactic(auto, using(crate::proofs::Procedures::found))]
    fn outcome(&self, alloc: Global, unit: u32) -> Result<Outcome, AllocError> {
        outcome(alloc, self.program, unit)
    }
}

/// The verdict on a program: the failure of its least procedure that fails, else their number. It is the same for
/// every number of workers, from 1 to 64. Where it accepts a program, every
/// consistent execution without a cycle is safe. The gate is called before each procedure that is judged; one behind
/// another that failed may be left out.
#[tactic(auto, using(crate::proofs::Judged::is_judged))]
pub fn judge<R: Threads + Sync, G: Gate>(
    rt: &R,
    alloc: Global,
    p: &Program,
    workers: u32,
    gate: &G,
) -> Result<Verdict, AllocError>
    requires supported { IsTrue (is_supported p.now) }
    requires some { 1 ≤ workers }
    requires few { workers ≤ 64 }
    ensures { IfOk result (IsJudged p.now) }
{
    programs_are_well_formed(p);
    verdict(rt, alloc, p, workers, gate)
}

/// The verdict of the rules.
fn verdict<R: Threads + Sync, G: Gate>(
    rt: &R,
    alloc: Global,
    p: &Program,
    workers: u32,
    gate: &G,
) -> Result<Verdict, AllocError>
    requires supported { IsTrue (is_supported p.now) }
    requires some { 1 ≤ workers }
    requires few { workers ≤ 64 }
    ensures { IfOk result (λ v. v ≡ verdict_of p.now) }
{
    // memory ends long before the numbers of units do
    let Ok(count) = u32::try_from(p.procs().len()) else {
        return Err(AllocError);
    };
    check_all(rt, alloc, &Procedures { program: p, count }, workers, gate)
}
