//! What the thread has done so far.
ghost use Rattle.std.specs.Prelude.{◌≡◌, [], ◌∷◌, ◌++◌, OnOk, OnErr, Some, true, length, vec_capacity, ◌<◌, ◌^◌, ◌+◌};
ghost use Rattle.fsl_graph.specs.Lone.{is_plain, IsLone};
ghost use Rattle.fsl_machine.specs.Serial.{IsSerial, IsPlaced};
ghost use Rattle.fsl_machine.specs.States.{with_trace};
ghost use Rattle.fsl_machine.specs.Orders.{Ascends};
ghost use Rattle.fsl_machine.specs.History.{value_by, value_at, answer_of, source_in, ordered, recorded, IsNext};
ghost use Rattle.fsl_graph.specs.Ending.{allocations, messages, is_alloc, is_write};

use crate::orders::{last_write, put};
use fsl_base::List;
use fsl_core::{Label, Need, Reply};
use fsl_graph::{Event, Graph, Order, Thread};
use std::alloc::{AllocError, Global};
use std::marker::Model;

/// The events so far, and the modification orders.
#[derive(Drop)]
pub(crate) struct History {
    alloc: Global,
    events: Vec<Event>,
    /// By ascending locations.
    orders: Vec<Order>,
    allocated: u32,
    written: u32,
}

impl Model for History {
    ghost use Rattle.fsl_machine.specs.Orders.{Ascends};
    ghost use Rattle.fsl_machine.specs.History.{Trace};
    ghost use Rattle.fsl_machine.specs.Serial.{IsKept};

    ghost Value = { Trace };

    ghost view = { λ h. record { events = h.events.items; mo = h.orders.items } };

    ghost invariant = { λ h. IsKept h.events.items h.orders.items h.allocated h.written };
}

impl History {
    /// Nothing is done yet. It takes no memory.
    pub(crate) fn new(alloc: Global) -> History
        ensures { result ≡ record { events = []; mo = [] } }
    {
        History {
            alloc,
            events: Vec::new(alloc),
            orders: Vec::new(alloc),
            allocated: 0,
            written: 0,
        }
    }

    /// How many locations were allocated.
    pub(crate) fn allocated(&self) -> u32
        ensures { result ≡ allocations self.now.events }
    {
        self.allocated
    }

    /// How many writes there are.
    pub(crate) fn written(&self) -> u32
        ensures { result ≡ messages self.now.events }
    {
        self.written
    }

    /// What the memory answers.
    pub(crate) fn answer(&self, need: &Need) -> Reply
        ensures { result ≡ answer_of self.now need.now }
    {
        match need {
            Need::Load { loc, .. } => Reply::Read {
                value: self.value_at(loc),
            },
            Need::Alloc { .. } => Reply::Place {
                loc: i64::from(self.allocated) + 1,
            },
            _ => Reply::Nothing,
        }
    }

    /// The graph of these threads, all of whose moves are those of the history.
    pub(crate) fn graph(self, threads: List<Thread>) -> Graph
        ensures graph { result ≡ with_trace threads self }
        ensures lone { IsLone (with_trace threads self) }
        ensures serial { IsSerial self.events self.mo }
        ensures placed { IsPlaced self.events (allocations self.events) }
    {
        Graph {
            threads,
            events: List::from_vec(self.events),
            mo: List::from_vec(self.orders),
        }
    }

    fn value_at(&self, loc: &i64) -> i64
        ensures { result ≡ value_at self.now loc.now }
    {
        match last_write(self.orders.as_slice(), loc) {
            Some(write) => written_by(&self.events[write as usize]),
            None => 0,
        }
    }

    /// Adds the event of a label that shows what the memory answers. For want of memory nothing changes.
    pub(crate) fn record(&mut self, label: Label) -> Result<(), AllocError>
        requires plain { is_plain label ≡ true }
        requires answered { IsNext self.old label }
        requires short { length self.old.events + 1 < 2 ^ 32 }
        ensures recorded { OnOk result (self.new ≡ recorded label self.old) }
        ensures kept { OnErr result (self.new ≡ self.old) }
    {
        self.events.reserve(1)?;
        let number = self.events.len() as u32;
        let from = source_of(self.orders.as_slice(), &label);
        let allocates = is_alloc(&label);
        let writes = is_write(&label);
        order(self.alloc, &mut self.orders, &label, number)?;
        self.allocated += u32::from(allocates);
        self.written += u32::from(writes);
        let event = Event {
            thread: 0,
            label,
            from,
        };
        push(&mut self.events, event);
        Ok(())
    }
}

/// What a load reads: the last write of its location.
fn source_of(orders: &[Order], label: &Label) -> Option<u32>
    requires { Ascends orders.now }
    ensures { result ≡ source_in orders.now label.now }
{
    match label {
        Label::Load { loc, .. } => last_write(orders, loc),
        _ => None,
    }
}

/// Puts a store behind the other writes of its location. For want of memory the orders stay.
fn order(
    alloc: Global,
    orders: &mut Vec<Order>,
    label: &Label,
    number: u32,
) -> Result<(), AllocError>
    requires { Ascends orders.old.items }
    ensures ordered { OnOk result (orders.new.items ≡ ordered number label.now orders.old.items) }
    ensures kept { OnErr result (orders.new.items ≡ orders.old.items) }
{
    match label {
        Label::Store { loc, .. } => put(alloc, orders, loc, number),
        _ => Ok(()),
    }
}

fn is_alloc(label: &Label) -> bool
    ensures { result ≡ is_alloc label.now }
{
    match label {
        Label::Alloc { .. } => true,
        _ => false,
    }
}

fn is_write(label: &Label) -> bool
    ensures { result ≡ is_write label.now }
{
    match label {
        Label::Store { .. } | Label::Rmw { .. } => true,
        _ => false,
    }
}

/// Adds an event at the end, where there is room.
fn push(events: &mut Vec<Event>, event: Event)
    requires { length events.old.items < vec_capacity events.old }
    ensures { events.new.items ≡ events.old.items ++ event ∷ [] }
{
    match events.push(event) {
        Ok(()) => (),
        Err(_) => unreachable!(),
    }
}

/// What a write has written, 0 for other events.
fn written_by(event: &Event) -> i64
    ensures { result ≡ value_by (Some event.now) }
{
    match &event.label {
        Label::Store { value, .. } => *value,
        Label::Rmw { new, .. } => *new,
        _ => 0,
    }
}
