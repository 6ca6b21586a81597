//! One worker: it draws units until none is left, and does those that may still be the least to fail.
ghost use Rattle.std.specs.Prelude.{◌≡◌, ◌<◌, length, None, IfOk};
ghost use Rattle.fsl_claim.specs.Claims.{view, IsPassOf, IsNew};
ghost use Rattle.fsl_claim.specs.Views.{times};
ghost use Rattle.fsl_check.specs.Workers.{IsDone, noted, failure_after};

use crate::failure::Failure;
use crate::work::Work;
use fsl_base::{Gate, Spot};
use fsl_claim::{Claims, Pass};
use fsl_core::Outcome;
use std::alloc::{AllocError, Global};

/// A worker's pass, and the least failing unit that it met.
#[derive(Drop)]
pub(crate) struct Worker {
    pub(crate) pass: Pass,
    pub(crate) failure: Option<Failure>,
}

impl Worker {
    /// Draws units until none is left. Before each it looks at the least unit that was reported to
    /// fail, and skips units above it.
    pub(crate) fn drain<W: Work, G: Gate>(
        self,
        alloc: Global,
        work: &W,
        gate: &G,
        claims: &Claims,
    ) -> Result<Worker, AllocError>
        requires size { length (W.outcomes work.now) ≡ claims.now.units }
        requires pass { IsNew claims.now self.pass }
        requires failure { self.failure ≡ None }
        ensures { IfOk result (λ worker. IsDone claims.now (W.outcomes work.now) worker) }
    {
        let mut worker = self;
        let _units = work.units();
        for _turn in 0..u64::MAX {
            let Some(unit) = claims.draw(&mut worker.pass) else {
                return Ok(worker);
            };
            if claims.least(&mut worker.pass) < unit {
                continue;
            }
            gate.before(Spot::Unit { number: unit });
            let outcome = work.outcome(alloc, unit)?;
            worker.note(claims, unit, outcome);
        }
        unreachable!()
    }

    // Reports a unit that fails, and keeps its failure.
    fn note(&mut self, claims: &Claims, unit: u32, outcome: Outcome)
        requires of { IsPassOf claims.now self.old.pass }
        requires drawn { 0 < times unit (view self.old.pass).drawn }
        ensures of { IsPassOf claims.now self.new.pass }
        ensures told { view self.new.pass ≡ noted (view self.old.pass) unit outcome }
        ensures failure { self.new.failure ≡ failure_after self.old.failure unit outcome }
    {
        if let Outcome::Fails { proc, span, kind } = outcome {
            claims.report(&mut self.pass, unit);
            self.failure = Some(Failure {
                unit,
                proc,
                span,
                kind,
            });
        }
    }
}
