//! The modification orders of the locations so far, by ascending locations.
ghost use Rattle.std.specs.Prelude.{◌≡◌, ◌≤◌, length, slice_get, OnOk, OnErr};
ghost use Rattle.fsl_machine.specs.Orders.{Ascends, index_of, is_at, last_of, last_write, put};

use fsl_base::List;
use fsl_graph::Order;
use std::alloc::{AllocError, Global};

/// The index of a location's order, or the index that it would have.
fn index(orders: &[Order], loc: &i64) -> usize
    requires { Ascends orders.now }
    ensures index { result ≡ index_of loc.now orders.now }
    ensures within { result ≤ length orders.now }
{
    orders.partition_point(|order| order.loc < *loc)
}

/// Whether the order at an index is that of a location.
fn is_at(orders: &[Order], at: usize, loc: &i64) -> bool
    ensures { result ≡ is_at loc.now (slice_get orders.now at) }
{
    match orders.get(at) {
        Some(order) => order.loc == *loc,
        None => false,
    }
}

/// The last of the writes of a location.
fn last_of(writes: &[u32]) -> Option<u32>
    ensures { result ≡ last_of writes.now }
{
    writes.last().copied()
}

/// The last write of a location, by binary search.
pub(crate) fn last_write(orders: &[Order], loc: &i64) -> Option<u32>
    requires { Ascends orders.now }
    ensures { result ≡ last_write orders.now loc.now }
{
    let at = index(orders, loc);
    if is_at(orders, at, loc) {
        last_of(orders[at].writes.as_slice())
    } else {
        None
    }
}

/// Puts a write behind the others of its location. For want of memory the orders stay as they were.
pub(crate) fn put(
    alloc: Global,
    orders: &mut Vec<Order>,
    loc: &i64,
    write: u32,
) -> Result<(), AllocError>
    requires { Ascends orders.old.items }
    ensures put { OnOk result (orders.new.items ≡ put loc.now write orders.old.items) }
    ensures kept { OnErr result (orders.new.items ≡ orders.old.items) }
{
    let at = index(orders.as_slice(), loc);
    if is_at(orders.as_slice(), at, loc) {
        return orders[at].writes.push(write);
    }
    let writes = List::from_slice(alloc, &[write])?;
    orders.insert(at, Order { loc: *loc, writes })?;
    Ok(())
}
