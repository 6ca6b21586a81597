//! Whole-number combinations of symbols, equations between them, and what follows from equations and
//! bounds.
#![tactic(auto)]

mod combine;
mod edge;
mod eqs;
mod equation;
mod extend;
mod fact;
mod fault;
pub mod laws;
mod lin;
mod normal;
mod places;
mod sign;
mod step;
mod sym;
mod took;

pub use edge::Edge;
pub use eqs::Eqs;
pub use equation::Equation;
pub use fact::Fact;
pub use fault::LinFault;
pub use lin::Lin;
pub use normal::PLACES;
pub use places::is_constant;
pub use sym::Sym;
pub use took::Took;
