//! Branches: what a path goes on with, or how it fails.

use fsl_chunk::{Env, State};
use fsl_core::Kind;

/// A branch of a rule that gives nothing but the state that it leaves.
#[derive(Drop)]
pub enum Branch {
    Goes { state: State },
    Fails { kind: Kind },
}

/// A branch of a decision, with its answer.
#[derive(Drop)]
pub enum Decided {
    Goes { state: State, holds: bool },
    Fails { kind: Kind },
}

/// A branch of an assertion, with the environment in which its binders are set.
#[derive(Drop)]
pub enum Bound {
    Goes { state: State, env: Env },
    Fails { kind: Kind },
}
