//! The table of difference bounds: what one more bound makes of it, and what it says of an edge.
ghost use Rattle.std.specs.Prelude.{◌≡◌, ◌≤◌, ◌^◌, ◌||◌, ℕ, true, false, length, IfOk, OnErr};
ghost use Rattle.fsl_lin.specs.Numbers.{listed};
ghost use Rattle.fsl_lin.specs.Walks.{feasible, least};
ghost use Rattle.fsl_lin.specs.Facts.{at_most, edge_of, with_edge_of};
ghost use Rattle.fsl_lin.specs.Sizes.{IsSize};
ghost use Rattle.fsl_pure.specs.Table.{refutes};

use crate::difference::edge_of;
use fsl_bounds::{Added, Bounds};
use fsl_lin::{Edge, is_constant};
use std::alloc::{AllocError, Global};

/// Adds a bound in normal form, where it says something of a difference, and answers whether it contradicts
/// those that are there. For want of memory, and where it contradicts them, the table stays as it was.
pub fn lay(table: &mut Bounds, alloc: Global, numbers: &[i128]) -> Result<bool, AllocError>
    requires whole { length numbers.now ≡ 513 }
    requires size { (i : ℕ) → IsSize (2 ^ 126) (listed numbers.now i) }
    requires small { IsSize (2 ^ 90) (listed numbers.now 0) }
    requires clear { feasible table.old.edges ≡ true }
    ensures told { IfOk result (λ refuted. refuted ≡ refutes table.old.edges (listed numbers.now)) }
    ensures laid { IfOk result (λ refuted. refuted ≡ false → table.new ≡ record { edges = with_edge_of (edge_of (listed numbers.now)) table.old.edges; marks = table.old.marks }) }
    ensures kept { OnErr result (table.new ≡ table.old) }
{
    match edge_of(numbers) {
        Some(edge) => match table.add(alloc, edge.from, edge.to, edge.bound)? {
            Added::Feasible => Ok(false),
            Added::Infeasible => Ok(true),
        },
        None => Ok(is_constant(numbers) && numbers[0] > 0),
    }
}

/// Adds a bound unless those that are there contradict each other already.
pub fn lay_unless(
    refuted: bool,
    table: &mut Bounds,
    alloc: Global,
    numbers: &[i128],
) -> Result<bool, AllocError>
    requires whole { length numbers.now ≡ 513 }
    requires size { (i : ℕ) → IsSize (2 ^ 126) (listed numbers.now i) }
    requires small { IsSize (2 ^ 90) (listed numbers.now 0) }
    requires clear { refuted ≡ false → feasible table.old.edges ≡ true }
    ensures told { IfOk result (λ r. r ≡ (refuted || refutes table.old.edges (listed numbers.now))) }
    ensures laid { IfOk result (λ r. r ≡ false → table.new ≡ record { edges = with_edge_of (edge_of (listed numbers.now)) table.old.edges; marks = table.old.marks }) }
    ensures kept { OnErr result (table.new ≡ table.old) }
{
    if refuted {
        Ok(true)
    } else {
        lay(table, alloc, numbers)
    }
}

/// Whether some walk has at most an edge's bound as its total: the table has the least.
pub fn walks(table: &Bounds, edge: &Edge) -> bool
    ensures { result ≡ at_most (least table.now.edges edge.now.from edge.now.to) edge.now.bound }
{
    match table.least(edge.from, edge.to) {
        Some(total) => total <= edge.bound,
        None => false,
    }
}
