//! The memory: all messages, and for each location their order.
ghost use Rattle.std.specs.Prelude.{◌≡◌, [], ◌∷◌, ◌++◌, ◌<◌, ◌^◌, length, slice_get, vec_capacity, IfOk, OnOk, OnErr, IsOk, IsTrue, ◌↔◌, if◌then◌else◌};
ghost use Rattle.std.specs.Option.{option_map};
ghost use Rattle.fsl_view.specs.View.{seen};
ghost use Rattle.fsl_mem.specs.Slots.{message, slots};
ghost use Rattle.fsl_mem.specs.Candidates.{readable, places, room_after, is_taken, end_of, IsBounded, IsSourceAt};

use crate::message::{Message, PutAt};
use crate::order::Order;
use crate::slots::{Gap, Slot, Source};
use crate::{candidates, orders};
use fsl_base::List;
use fsl_view::View;
use std::alloc::{AllocError, Global};
use std::collections::BTreeMap;
use std::marker::Model;

/// The messages of a run. The intervals of one location don't overlap.
#[derive(Drop)]
pub struct Memory {
    alloc: Global,
    messages: Vec<Message>,
    orders: BTreeMap<i64, Order>,
    ready: Option<i64>,
}

impl Model for Memory {
    ghost use Rattle.std.specs.Prelude.{reverse, vec_capacity};
    ghost use Rattle.fsl_mem.specs.Memory.{Stored, IsKept};

    ghost Value = { Stored };

    ghost view = { λ memory. record { messages = reverse memory.messages.items; ready = memory.ready } };

    ghost invariant = { λ memory. IsKept (reverse memory.messages.items) (vec_capacity memory.messages) memory.orders memory.ready };
}

impl Memory {
    /// The memory without messages. It takes no memory.
    pub fn new(alloc: Global) -> Memory
        ensures { result ≡ record { messages = []; ready = None } }
    {
        Memory {
            alloc,
            messages: Vec::new(alloc),
            orders: BTreeMap::new(alloc),
            ready: None,
        }
    }

    /// The sources of a read of `loc` by a thread with this view, the oldest first.
    pub fn readable(&self, alloc: Global, loc: i64, view: &View) -> Result<List<Source>, AllocError>
        ensures { IfOk result (λ them. them ≡ readable (seen view.now loc) (slots self.now.messages loc)) }
    {
        candidates::sources(alloc, self.slots(&loc), view.at(loc))
    }

    /// Whether each message of `loc` ends at 2^63 at most, as `places` and `room_after` ask.
    pub fn is_bounded(&self, loc: i64) -> bool
        ensures { IsTrue result ↔ IsBounded (slots self.now.messages loc) }
    {
        candidates::bounded(self.slots(&loc))
    }

    /// The places of a write to `loc` by a thread with this view, the oldest first.
    pub fn places(&self, alloc: Global, loc: i64, view: &View) -> Result<List<Gap>, AllocError>
        requires { IsBounded (slots self.now.messages loc) }
        ensures { IfOk result (λ them. them ≡ places (seen view.now loc) (slots self.now.messages loc)) }
    {
        candidates::gaps(alloc, self.slots(&loc), view.at(loc))
    }

    /// The interval that a read-modify-write of `loc` takes that reads from this source; `None` exactly
    /// where there is no room right after it.
    pub fn room_after(&self, loc: i64, source: &Source) -> Option<Gap>
        requires bounded { IsBounded (slots self.now.messages loc) }
        requires source { IsSourceAt self.now.messages loc source.now }
        ensures { result ≡ room_after (end_of self.now.messages source.now) (slots self.now.messages loc) }
    {
        candidates::after(self.slots(&loc), self.end_of(source, &loc))
    }

    /// Where a source ends: 0 for none.
    fn end_of(&self, source: &Source, loc: &i64) -> u64
        requires { IsSourceAt self.now.messages loc.now source.now }
        ensures { result ≡ end_of self.now.messages source.now }
    {
        match source {
            Source::Nothing => 0,
            Source::Message { number } => self.message(*number).gap.to,
        }
    }

    /// The slots of a location.
    fn slots(&self, loc: &i64) -> &[Slot]
        ensures { result.now ≡ slots self.now.messages loc.now }
    {
        orders::look(&self.orders, loc)
    }

    /// The message of a number.
    fn message(&self, number: u32) -> &Message
        requires { number < length self.now.messages }
        ensures { message self.now.messages number ≡ Some result.now }
    {
        item(self.messages.as_slice(), number)
    }

    /// The location of a message.
    pub fn loc(&self, number: u32) -> i64
        requires { number < length self.now.messages }
        ensures { option_map (λ m. m.loc) (message self.now.messages number) ≡ Some result }
    {
        self.message(number).loc
    }

    /// The value of a message.
    pub fn value(&self, number: u32) -> i64
        requires { number < length self.now.messages }
        ensures { option_map (λ m. m.value) (message self.now.messages number) ≡ Some result }
    {
        self.message(number).value
    }

    /// The number of the event that put a message.
    pub fn event(&self, number: u32) -> u32
        requires { number < length self.now.messages }
        ensures { option_map (λ m. m.event) (message self.now.messages number) ≡ Some result }
    {
        self.message(number).event
    }

    /// The view of a message.
    pub fn view_of(&self, number: u32) -> &View
        requires { number < length self.now.messages }
        ensures { option_map (λ m. m.view) (message self.now.messages number) ≡ Some result.now }
    {
        &self.message(number).view
    }

    /// The interval of a message.
    pub fn gap(&self, number: u32) -> Gap
        requires { number < length self.now.messages }
        ensures { option_map (λ m. m.gap) (message self.now.messages number) ≡ Some result }
    {
        self.message(number).gap
    }

    /// How many messages there are.
    pub fn len(&self) -> usize
        ensures { result ≡ length self.now.messages }
    {
        self.messages.len()
    }

    /// Makes room for one message of `loc`: if the next one is put there, it finds memory.
    pub fn reserve(&mut self, loc: i64) -> Result<(), AllocError>
        ensures messages { self.new.messages ≡ self.old.messages }
        ensures ready { OnOk result (self.new.ready ≡ Some loc) }
        ensures kept { OnErr result (self.new ≡ self.old) }
        ensures succeeds { self.old.ready ≡ Some loc → IsOk result }
    {
        if self.ready == Some(loc) {
            return Ok(());
        }
        self.messages.reserve(1)?;
        orders::reserve(self.alloc, &mut self.orders, &loc)?;
        self.ready = Some(loc);
        Ok(())
    }

    /// Puts a message, whose number is the number of messages before it. `Taken` comes exactly where
    /// its interval is empty or overlaps one of its location, and then nothing changes.
    pub fn put(
        &mut self,
        loc: i64,
        gap: Gap,
        value: i64,
        event: u32,
        view: View,
    ) -> Result<PutAt, AllocError>
        requires { length self.old.messages < 2 ^ 32 }
        ensures answer { IfOk result (λ answer. answer ≡ (if is_taken gap (slots self.old.messages loc) then PutAt.Taken else PutAt.Done (length self.old.messages))) }
        ensures put { IfOk result (λ answer. answer ≡ PutAt.Done (length self.old.messages) → self.new.messages ≡ record { loc = loc; gap = gap; value = value; event = event; view = view } ∷ self.old.messages) }
        ensures taken { IfOk result (λ answer. answer ≡ PutAt.Taken → self.new ≡ self.old) }
        ensures kept { OnErr result (self.new ≡ self.old) }
        ensures reserved { self.old.ready ≡ Some loc → IsOk result }
    {
        if candidates::taken(self.slots(&loc), &gap) {
            return Ok(PutAt::Taken);
        }
        self.reserve(loc)?;
        let number = self.messages.len() as u32;
        self.store(Message {
            loc,
            gap,
            value,
            event,
            view,
        });
        Ok(PutAt::Done { number })
    }

    /// Adds a message for which room was made.
    fn store(&mut self, message: Message)
        requires few { length self.old.messages < 2 ^ 32 }
        requires ready { self.old.ready ≡ Some message.loc }
        ensures { self.new ≡ record { messages = message ∷ self.old.messages; ready = None } }
    {
        let slot = Slot {
            gap: message.gap,
            number: self.messages.len() as u32,
        };
        orders::file(&mut self.orders, &message.loc, slot);
        push(&mut self.messages, message);
        self.ready = None;
    }
}

/// The item of a number.
fn item(messages: &[Message], number: u32) -> &Message
    requires { number < length messages.now }
    ensures { slice_get messages.now number ≡ Some result.now }
{
    &messages[number as usize]
}

/// Adds an item at the end, where there is room.
fn push(messages: &mut Vec<Message>, message: Message)
    requires { length messages.old.items < vec_capacity messages.old }
    ensures items { messages.new.items ≡ messages.old.items ++ message ∷ [] }
{
    match messages.push(message) {
        Ok(()) => (),
        Err(_) => unreachable!(),
    }
}
