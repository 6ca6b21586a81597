//! Graphs: threads, events and the modification orders of the locations.
ghost use Rattle.std.specs.Prelude.{◌≡◌, ◌<◌, length, slice_get, Some, None, IfSome, IfNone};
ghost use Rattle.fsl_graph.specs.Places.{order_of};

use crate::event::Event;
use fsl_base::List;

/// A thread: what it was started with, and how many moves it has made, local ones included.
#[derive(Drop)]
pub struct Thread {
    /// The procedure that it runs, by its number.
    pub proc: u32,
    pub args: List<i64>,
    pub moves: u32,
}

/// The modification order of a location (C11 5.1.2.4): its writes by their numbers, the first one first.
#[derive(Drop)]
pub struct Order {
    pub loc: i64,
    pub writes: List<u32>,
}

/// What was done: the threads and events by their numbers, from 0.
#[derive(Drop)]
pub struct Graph {
    pub threads: List<Thread>,
    pub events: List<Event>,
    /// One order for each location that was written, the locations ascending.
    pub mo: List<Order>,
}

impl Graph {
    /// A thread by its number, which is below the number of threads.
    pub fn thread(&self, t: u32) -> &Thread
        requires there { t < length self.now.threads }
        ensures { slice_get self.now.threads t ≡ Some result.now }
    {
        &self.threads.as_slice()[t as usize]
    }

    /// An event by its number, which is below the number of events.
    pub fn event(&self, e: u32) -> &Event
        requires there { e < length self.now.events }
        ensures { slice_get self.now.events e ≡ Some result.now }
    {
        &self.events.as_slice()[e as usize]
    }

    /// The order of a location, `None` where no entry has it.
    pub fn order(&self, loc: i64) -> Option<&Order>
        ensures found { IfSome result (λ order. order_of self.now.mo loc ≡ Some order.now) }
        ensures none { IfNone result (order_of self.now.mo loc ≡ None) }
    {
        for order in self.mo.as_slice() {
            if order.loc == loc {
                return Some(order);
            }
        }
        None
    }
}
