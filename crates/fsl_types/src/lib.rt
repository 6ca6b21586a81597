//! From the syntax tree to the program: names become numbered slots, and of the faults of a tree that is no
//! program the first is named. `specs/Programs.antt` says which program a tree is, `specs/Faults.antt` what its
//! faults are.
#![tactic(auto)]

mod assertions;
mod atoms;
mod declarations;
mod fault;
mod given;
mod judging;
mod listing;
mod names;
mod numbering;
mod occurrence;
mod predicates;
mod resolved;
mod resolver;
mod resolving;
mod right_sides;
mod rules;
mod scope;
mod statements;
mod table;
mod variable;

pub use fault::{Fault, TypeFault, TypeKind};
pub use given::{Globals, Setting};
pub use listing::Listing;
pub use occurrence::{Access, Due, Occurrence};
pub use predicates::has_predicates;
pub use resolved::Resolved;
pub use resolver::Resolver;
pub use resolving::resolve;
pub use rules::{least_fault, note};
pub use scope::Scope;
pub use table::Table;
pub use variable::{Signature, Sort, Variable};
