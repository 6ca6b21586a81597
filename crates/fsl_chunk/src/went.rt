//! What came of a call that takes a state and goes on in one branch at most.
use crate::state::State;
use fsl_core::Kind;
use fsl_lin::Lin;

/// What came of an action.
#[derive(Drop)]
pub enum Went {
    /// It goes on with this state.
    Goes { state: State },
    /// The facts contradict each other, so there is no branch.
    Infeasible,
    /// The path fails.
    Fails { kind: Kind },
}

/// What came of making a symbol.
#[derive(Drop)]
pub enum Made {
    /// The symbol, and the state with it.
    Goes { state: State, symbol: Lin },
    /// The path fails.
    Fails { kind: Kind },
}
