//! The least failing unit that was met, with its failure.
ghost use Rattle.std.specs.Prelude.{◌≡◌, ℕ, List, min};
ghost use Rattle.fsl_core.specs.declared.verdict.Outcome.{Outcome};
ghost use Rattle.fsl_core.specs.declared.verdict.Verdict.TheVariants.{Failed};
ghost use Rattle.fsl_check.specs.Failures.{Finds};

use fsl_base::Span;
use fsl_core::{Kind, Verdict};

/// A unit that fails, and how.
#[derive(Clone, Copy, Debug, PartialEq, Eq)]
pub(crate) struct Failure {
    pub(crate) unit: u32,
    pub(crate) proc: u32,
    pub(crate) span: Span,
    pub(crate) kind: Kind,
}

impl Failure {
    /// The verdict where this is the least failing unit.
    pub(crate) fn verdict(self) -> Verdict
        ensures { result ≡ Failed self.proc self.span self.kind }
    {
        Verdict::Failed {
            proc: self.proc,
            span: self.span,
            kind: self.kind,
        }
    }
}

/// The failure of the lesser unit.
pub(crate) fn lesser(one: Option<Failure>, other: Option<Failure>) -> Option<Failure>
    ensures { (outcomes : List Outcome) (low high : ℕ) → Finds outcomes low one → Finds outcomes high other → Finds outcomes (min low high) result }
{
    match (one, other) {
        (Some(first), Some(second)) => {
            if second.unit < first.unit {
                Some(second)
            } else {
                Some(first)
            }
        }
        (Some(first), None) => Some(first),
        (None, second) => second,
    }
}
