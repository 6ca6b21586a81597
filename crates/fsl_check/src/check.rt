//! All units, by as many workers as are wanted.
ghost use Rattle.std.specs.Prelude.{◌≡◌, ◌<◌, ◌≤◌, List, All, IfOk, length};
ghost use Rattle.fsl_core.specs.declared.verdict.Outcome.{Outcome};
ghost use Rattle.fsl_claim.specs.declared.claims.Claims.{Claims};
ghost use Rattle.fsl_core.specs.Verdicts.{verdict_from};
ghost use Rattle.fsl_claim.specs.Claims.{IsNew};
ghost use Rattle.fsl_check.specs.Workers.{IsDone};
ghost use Rattle.fsl_check.specs.Ends.{EndsWell, IsEnded};

use crate::failure::{Failure, lesser};
use crate::work::Work;
use crate::worker::Worker;
use fsl_base::{Gate, List};
use fsl_claim::{Claiming, Claims, Pass};
use fsl_core::Verdict;
use std::alloc::{AllocError, Global};
use std::thread;
use std::thread::Threads;

/// The verdict by the outcomes of all units: the failure of the least unit that fails, else their
/// number. It is the same for every number of workers, from 1 to 64. The gate is called before each
/// unit that is done, and a unit above one that failed may be left out.
pub fn check_all<R: Threads + Sync, W: Work, G: Gate>(
    rt: &R,
    alloc: Global,
    work: &W,
    workers: u32,
    gate: &G,
) -> Result<Verdict, AllocError>
    requires { (1 ≤ workers) × (workers ≤ 64) }
    ensures { IfOk result (λ verdict. verdict ≡ verdict_from 0 (W.outcomes work.now)) }
{
    let units = work.units();
    let Claiming { claims, passes } = Claims::new(alloc, units, workers)?;
    let shared = &claims;
    let ends = thread::map_vec(
        rt,
        passes.into_vec(),
        &|pass| -> Result<Worker, AllocError>
            requires { (length (W.outcomes work.now) ≡ shared.now.units) × IsNew shared.now pass }
            ensures { IfOk result (λ worker. IsDone shared.entry.now (W.outcomes work.entry.now) worker) }
        {
            let worker = Worker {
                pass,
                failure: None,
            };
            worker.drain(alloc, work, gate, shared)
        },
    )?;
    let Ended { passes, failure } = all_ended(alloc, List::from_vec(ends))?;
    let Some(_least) = claims.gather(passes) else {
        return Ok(Verdict::Accepted { procs: units });
    };
    let Some(failure) = failure else {
        unreachable!()
    };
    Ok(failure.verdict())
}

/// What all workers left: their passes, and the least failing unit that any of them met.
#[derive(Drop)]
struct Ended {
    passes: List<Pass>,
    failure: Option<Failure>,
}

fn all_ended(alloc: Global, ends: List<Result<Worker, AllocError>>) -> Result<Ended, AllocError>
    ensures { IfOk result (λ ended. (claims : Claims) (outcomes : List Outcome) → All (EndsWell claims outcomes) ends → IsEnded claims outcomes (length ends) ended) }
{
    let mut left = ends;
    let mut passes = List::new(alloc);
    let mut failure = None;
    while let Some(end) = left.pop() {
        let worker = end?;
        passes.push(worker.pass)?;
        failure = lesser(failure, worker.failure);
    }
    Ok(Ended { passes, failure })
}
