//! Procedures that are about to run side by side, and branches that carry them.
use fsl_base::List;
use fsl_chunk::{Env, State};
use fsl_core::{Kind, Proc};

/// A procedure that is about to run, with its environment.
#[derive(Drop)]
pub struct Running<'a> {
    pub proc: &'a Proc,
    pub env: Env,
}

/// A branch, with the procedures whose `requires` it has given.
#[derive(Drop)]
pub enum Started<'a> {
    Goes {
        state: State,
        running: List<Running<'a>>,
    },
    Fails {
        kind: Kind,
    },
}
