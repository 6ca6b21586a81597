//! Assertions on symbolic states, branch by branch: terms, decisions, and how an assertion is produced and
//! consumed.
#![tactic(auto)]

mod asked;
mod atoms;
mod authority;
mod bound;
mod branch;
mod cells;
mod claims;
mod consuming;
mod counts;
mod deciding;
mod given;
mod join;
mod leaves;
mod permissions;
mod pointed;
mod producing;
mod sides;
mod take;
mod terms;
mod tokens;
mod walk;

pub use asked::read;
pub use authority::{add_authority, take_authority};
pub use branch::{Bound, Branch, Decided};
pub use cells::{FoundCell, cell, cell_at};
pub use claims::{add_init, add_rel, add_rmw};
pub use counts::{FoundCount, authority_of, tokens_of};
pub use deciding::{assume_cond, decide, decide_cond, demand_cond};
pub use join::{FULL, add_cell, assume_share};
pub use leaves::{all_terms, leave};
pub use permissions::{consume_acq, produce_acq};
pub use pointed::{PointsTo, Value, points_to, value_of};
pub use take::{Matched, consume_cell, match_value};
pub use terms::{constant, term, var};
pub use tokens::{add_tokens, take_tokens};
pub use walk::{consume, produce};
