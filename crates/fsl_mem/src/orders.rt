//! The slots of all locations.
ghost use Rattle.std.specs.Prelude.{◌≡◌, ℤ, OnOk, if◌then◌else◌};
ghost use Rattle.std.specs.Ordering.{int_eq};
ghost use Rattle.fsl_mem.specs.Slots.{insert_slot};
ghost use Rattle.fsl_mem.specs.Orders.{slots_at, HasRoomAt};

use crate::order::Order;
use crate::slots::Slot;
use std::alloc::{AllocError, Global};
use std::collections::BTreeMap;

/// The slots of a location.
pub(crate) fn look<'a>(orders: &'a BTreeMap<i64, Order>, loc: &i64) -> &'a [Slot]
    ensures { result.now ≡ slots_at orders.now loc.now }
{
    match orders.get(loc) {
        Some(order) => order.slots(),
        None => &[],
    }
}

/// Makes room for one more slot of a location.
pub(crate) fn reserve(
    alloc: Global,
    orders: &mut BTreeMap<i64, Order>,
    loc: &i64,
) -> Result<(), AllocError>
    ensures slots { (l : ℤ) → slots_at orders.new l ≡ slots_at orders.old l }
    ensures reserved { OnOk result (HasRoomAt orders.new loc.now) }
    ensures room { (l : ℤ) → HasRoomAt orders.old l → HasRoomAt orders.new l }
{
    match orders.get_mut(loc) {
        Some(order) => order.reserve(),
        None => {
            let mut order = Order::new(alloc);
            order.reserve()?;
            orders.insert(*loc, order)?;
            Ok(())
        }
    }
}

/// Files a slot at its location, where there is room.
pub(crate) fn file(orders: &mut BTreeMap<i64, Order>, loc: &i64, slot: Slot)
    requires { HasRoomAt orders.old loc.now }
    ensures { (l : ℤ) → slots_at orders.new l ≡ (if int_eq loc.now l then insert_slot slot (slots_at orders.old l) else slots_at orders.old l) }
{
    match orders.get_mut(loc) {
        Some(order) => order.insert(slot),
        None => unreachable!(),
    }
}
