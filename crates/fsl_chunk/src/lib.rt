//! What a path knows and owns: the heap of its chunks, and its state with the calls that assume facts, make
//! symbols and change variables and chunks, each as the definitions of `fsl_core/specs/logic` say.
#![tactic(auto)]

mod env;
mod fault;
mod fits;
mod heap;
mod kind;
mod leave;
mod numbers;
mod state;
mod want;
mod went;

pub use env::Env;
pub use fault::HeapFault;
pub use heap::Heap;
pub use kind::ChunkKind;
pub use leave::Leave;
pub use state::State;
pub use want::Want;
pub use went::{Made, Went};
