//! The slots of one location.
ghost use Rattle.std.specs.Prelude.{◌≡◌, [], ◌≤◌, ◌<◌, length, insert, OnOk, vec_capacity};
ghost use Rattle.fsl_mem.specs.Slots.{insert_slot};

use crate::slots::Slot;
use std::alloc::{AllocError, Global};
use std::marker::Model;

/// The messages of a location, by ascending ends.
#[derive(Drop)]
pub(crate) struct Order {
    slots: Vec<Slot>,
}

impl Model for Order {
    ghost use Rattle.std.specs.Prelude.{vec_capacity};
    ghost use Rattle.fsl_mem.specs.Order.{Filed};

    ghost Value = { Filed };

    ghost view = { λ order. record { slots = order.slots.items; room = vec_capacity order.slots } };
}

impl Order {
    pub(crate) fn new(alloc: Global) -> Order
        ensures { result.slots ≡ [] }
    {
        Order {
            slots: Vec::new(alloc),
        }
    }

    pub(crate) fn slots(&self) -> &[Slot]
        ensures { result.now ≡ self.now.slots }
    {
        self.slots.as_slice()
    }

    /// Makes room for one more slot.
    pub(crate) fn reserve(&mut self) -> Result<(), AllocError>
        ensures slots { self.new.slots ≡ self.old.slots }
        ensures reserved { OnOk result (length self.new.slots < self.new.room) }
        ensures room { self.old.room ≤ self.new.room }
    {
        self.slots.reserve(1)
    }

    /// Files a slot, where there is room.
    pub(crate) fn insert(&mut self, slot: Slot)
        requires { length self.old.slots < self.old.room }
        ensures { self.new.slots ≡ insert_slot slot self.old.slots }
    {
        insert(&mut self.slots, slot)
    }
}

fn insert(slots: &mut Vec<Slot>, slot: Slot)
    requires { length slots.old.items < vec_capacity slots.old }
    ensures { slots.new.items ≡ insert_slot slot slots.old.items }
{
    let at = index(slots.as_slice(), &slot);
    match slots.insert(at, slot) {
        Ok(()) => (),
        Err(_) => unreachable!(),
    }
}

/// The index of the first slot that ends later, behind the last where none does.
fn index(slots: &[Slot], slot: &Slot) -> usize
    ensures within { result ≤ length slots.now }
    ensures inserts { insert slots.now result slot.now ≡ insert_slot slot.now slots.now }
{
    let mut index = 0;
    for other in slots {
        if slot.gap.to < other.gap.to {
            return index;
        }
        index += 1;
    }
    index
}
