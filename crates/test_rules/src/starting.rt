//! Where a row starts: the states in which the `requires` of its procedure holds.

use fsl_asrt::{Bound, constant, produce};
use fsl_base::{List, Text};
use fsl_chunk::{Env, Made, State};
use fsl_core::{Kind, Proc, Rung};
use std::alloc::{AllocError, Global};

/// The answer where a row's text is no program.
pub fn no_program(alloc: Global) -> Result<Text, AllocError> {
    Text::from_str(alloc, "no program")
}

/// The answer where a row's program isn't supported.
pub fn not_supported(alloc: Global) -> Result<Text, AllocError> {
    Text::from_str(alloc, "not supported")
}

/// A state that knows nothing, with a new symbol for each parameter.
fn parameters(alloc: Global, proc: &Proc) -> Result<Bound, AllocError> {
    let mut state = State::new(alloc, Env::new(alloc))?;
    let mut env = Env::new(alloc);
    for _parameter in 0..proc.params {
        state = match state.new_symbol(alloc)? {
            Made::Goes { state, symbol } => {
                env.push(alloc, symbol)?;
                state
            }
            Made::Fails { kind } => return Ok(Bound::Fails { kind }),
        };
    }
    Ok(Bound::Goes { state, env })
}

/// An environment with 0 for each variable that has no term yet.
fn padded(alloc: Global, env: Env, proc: &Proc) -> Result<Env, AllocError> {
    let mut env = env;
    for _variable in proc.params..proc.slots {
        let nought = constant(alloc, 0)?;
        env.push(alloc, nought)?;
    }
    Ok(env)
}

/// The branches on which the `requires` of a procedure is produced at a rung.
pub fn produced(alloc: Global, proc: &Proc, rung: Rung) -> Result<List<Bound>, AllocError> {
    match parameters(alloc, proc)? {
        Bound::Goes { state, env } => {
            let env = padded(alloc, env, proc)?;
            produce(alloc, state, &proc.pre, env, rung)
        }
        Bound::Fails { kind } => failing(alloc, kind),
    }
}

/// The one state that a procedure starts in.
pub fn only(alloc: Global, proc: &Proc) -> Result<Option<Bound>, AllocError> {
    let mut branches = produced(alloc, proc, Rung::Plain)?;
    if branches.len() == 1 {
        Ok(branches.pop())
    } else {
        Ok(None)
    }
}

/// The one branch that fails.
pub fn failing(alloc: Global, kind: Kind) -> Result<List<Bound>, AllocError> {
    let mut branches = List::new(alloc);
    branches.push(Bound::Fails { kind })?;
    Ok(branches)
}
