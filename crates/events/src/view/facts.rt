//! What is known of an event by its name, and of a pair of events.

ghost use Rattle.std.specs.Prelude.{◌≡◌, ◌↔◌, IsTrue, MatchOption};
ghost use Rattle.events.specs.Named.{no_event, event_at, access_of, location_of, order_of, data_of, control_of, IsMemory, IsExchange, IsDependency};
ghost use Rattle.events.specs.Rows.{IsAccessOf};

use crate::event::{Access, Event, EventId, Order};
use crate::graph::Graph;
use relations::Places;

/// Are they of one thread, and is the place of the first in the set?
fn is_dependency(places: &Places, first: EventId, second: EventId) -> bool
    ensures { IsTrue result ↔ IsDependency first second places.now }
{
    match (first, second) {
        (EventId::Own(thread, place), EventId::Own(same, _)) => {
            thread == same && places.contains(place)
        }
        _ => false,
    }
}

impl Graph {
    /// The event of a thread at this place of its run.
    #[tactic(auto, unfolding(crate::specs::Named::event_at))]
    pub(super) fn event(&self, thread: usize, place: usize) -> Option<&Event>
        ensures { MatchOption result (event_at self.now thread place ≡ no_event) (λ e. e.now ≡ event_at self.now thread place) }
    {
        match self.runs().get(thread) {
            Some(run) => run.events().get(place),
            None => None,
        }
    }

    /// What the event does.
    pub(super) fn access(&self, event: EventId) -> Access
        ensures { result ≡ access_of self.now event }
    {
        match event {
            EventId::Initial(_) => Access::Write,
            EventId::Own(thread, place) => match self.event(thread, place) {
                Some(event) => event.access,
                None => Access::Fence,
            },
        }
    }

    /// The location that the event reads or writes.
    pub(super) fn location(&self, event: EventId) -> usize
        ensures { result ≡ location_of self.now event }
    {
        match event {
            EventId::Initial(location) => location,
            EventId::Own(thread, place) => match self.event(thread, place) {
                Some(event) => event.loc,
                None => 0,
            },
        }
    }

    /// The memory order of the event.
    pub(super) fn order(&self, event: EventId) -> Order
        ensures { result ≡ order_of self.now event }
    {
        match event {
            EventId::Initial(_) => Order::NoOrder,
            EventId::Own(thread, place) => match self.event(thread, place) {
                Some(event) => event.order,
                None => Order::NoOrder,
            },
        }
    }

    /// Does the event read or write?
    pub(super) fn is_memory(&self, event: EventId) -> bool
        ensures { IsTrue result ↔ IsMemory self.now event }
    {
        let access = self.access(event);
        access.is_read() || access.is_write()
    }

    /// Does the event read or write this location?
    pub(super) fn is_access_of(&self, location: usize, event: EventId) -> bool
        ensures { IsTrue result ↔ IsAccessOf self.now location event }
    {
        self.location(event) == location && self.is_memory(event)
    }

    /// Are they the read and the write of one exchange, or of one addition?
    pub(super) fn is_exchange(&self, first: EventId, second: EventId) -> bool
        ensures { IsTrue result ↔ IsExchange self.now first second }
    {
        first.is_next(second)
            && self.access(first) == Access::ExRead
            && self.access(second) == Access::ExWrite
    }

    /// Did the value that the first read reach the value that the second writes?
    pub(super) fn is_data_dependency(&self, first: EventId, second: EventId) -> bool
        ensures { IsTrue result ↔ IsDependency first second (data_of self.now second) }
    {
        match second {
            EventId::Initial(_) => false,
            EventId::Own(thread, place) => match self.event(thread, place) {
                Some(event) => is_dependency(&event.data_from, first, second),
                None => false,
            },
        }
    }

    /// Did the value that the first read reach the test of a branch around the second?
    pub(super) fn is_control_dependency(&self, first: EventId, second: EventId) -> bool
        ensures { IsTrue result ↔ IsDependency first second (control_of self.now second) }
    {
        match second {
            EventId::Initial(_) => false,
            EventId::Own(thread, place) => match self.event(thread, place) {
                Some(event) => is_dependency(&event.ctrl_from, first, second),
                None => false,
            },
        }
    }
}
