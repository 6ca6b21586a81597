//! Work that falls into numbered units, each with an outcome of its own.
ghost use Rattle.std.specs.Prelude.{◌≡◌, ◌<◌, List, length, slice_get, Some, IfOk};

use fsl_core::Outcome;
use std::alloc::{AllocError, Global};

/// Work in units, numbered from 0 on. Units don't touch each other: any thread may do any of them.
pub trait Work: Sync {
    ghost use Rattle.fsl_core.specs.declared.verdict.Outcome.{Outcome};

    /// The outcome of each unit.
    ghost outcomes: { Self → List Outcome };

    /// How many units there are.
    fn units(&self) -> u32
        ensures { result ≡ length (outcomes self.now) };

    /// The outcome of a unit.
    fn outcome(&self, alloc: Global, unit: u32) -> Result<Outcome, AllocError>
        requires { unit < length (outcomes self.now) }
        ensures { IfOk result (λ found. slice_get (outcomes self.now) unit ≡ Some found) };
}
