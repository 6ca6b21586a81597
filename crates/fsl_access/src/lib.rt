//! The rules of accesses: allocations, loads, stores, fences and frees. Each call takes the state of a path and answers
//! the branches of one rule of `fsl_core/specs/logic`, in order.
#![tactic(auto)]

mod accesses;
mod branches;
mod fences;
mod initial;
mod loading;
mod located;
mod location;
mod modes;
mod permissions;
mod pieces;
mod storing;

pub use accesses::{alloc_na, free, load_na, store_na};
pub use branches::{failing, going, set_on_each, without_env};
pub use fences::fence;
pub use loading::load;
pub use located::alloc_at;
pub use pieces::padded;
pub use storing::store;
