//! What is kept of the runs of a choice.

ghost use Rattle.std.specs.Prelude.{◌≡◌, ◌<◌, ◌≤◌, [], length, slice_index_or};
ghost use Rattle.listings.specs.Lists.{factorial};

use crate::capped::capped_factorial;
use crate::depths::Depth;
use crate::fault::MOST_CANDIDATES;
use crate::levels::Level;
use crate::reading::{Hit, Suitable};
use events::{Event, EventId, Graph, GraphParts, Run};
use std::alloc::Global;
use std::marker::Model;

/// The writes to one location, but the initial one, and how many orders of them there are.
#[derive(Drop)]
pub(crate) struct Writes {
    writes: Vec<EventId>,
    orders: u64,
}

impl Model for Writes {
    ghost use Rattle.std.specs.Prelude.{◌≡◌, List, length};
    ghost use Rattle.events.specs.declared.event.EventId.{EventId};
    ghost use Rattle.listings.specs.Lists.{factorial};

    ghost Value = { List EventId };

    ghost view = { λ w. w.writes.items };

    ghost invariant = { λ w. w.orders ≡ factorial (length w.writes.items) };
}

/// How many orders of these writes there are.
fn orders_of(writes: &[EventId]) -> u64
    requires { factorial (length writes.now) ≤ MOST_CANDIDATES }
    ensures { (result ≡ factorial (length writes.now)) × (1 ≤ result) }
{
    capped_factorial(writes.len()).unwrap()
}

impl Writes {
    /// These writes.
    pub(crate) fn new(writes: Vec<EventId>) -> Self
        requires { factorial (length writes.items) ≤ MOST_CANDIDATES }
        ensures { result ≡ writes.items }
    {
        let orders = orders_of(&writes);
        Writes { writes, orders }
    }

    /// No writes.
    pub(crate) fn none(alloc: Global) -> Self
        ensures { result ≡ [] }
    {
        Writes {
            writes: Vec::new(alloc),
            orders: 1,
        }
    }

    /// The writes, in the vector that holds them.
    pub(crate) fn into_list(self) -> Vec<EventId>
        ensures { result.items ≡ self }
    {
        self.writes
    }

    /// The writes, in the order of their events.
    pub(crate) fn list(&self) -> &[EventId]
        ensures { result.now ≡ self.now }
    {
        &self.writes
    }

    /// How many orders of the writes there are.
    pub(crate) fn orders(&self) -> u64
        ensures { (result ≡ factorial (length self.now)) × (1 ≤ result) }
    {
        self.orders
    }
}

/// The runs of a choice, at which place of its thread's runs each of the first stands, their reads, which of their sources these fit, the later
/// writes of each location, in how many ways the reads can read and the writes be ordered, and the depths of blocks.
pub(crate) struct Page {
    pub(crate) runs: Vec<Run>,
    pub(crate) places: Vec<usize>,
    pub(crate) reads: Vec<Event>,
    pub(crate) suitable: Vec<Suitable>,
    pub(crate) writes: Vec<Writes>,
    pub(crate) ways: u64,
    pub(crate) orders: u64,
    pub(crate) depths: Vec<Depth>,
}

// Functions of their own, here and below: whoever holds one drops it by a call.
impl Drop for Page {
    fn drop(self) {
        let Page {
            runs: _,
            places: _,
            reads: _,
            suitable: _,
            writes: _,
            ways: _,
            orders: _,
            depths: _,
        } = self;
    }
}

impl Page {
    /// The later writes of a location.
    pub(crate) fn writes_to(&self, location: usize) -> &[EventId]
        requires { location < length self.now.writes.items }
        ensures { result.now ≡ slice_index_or self.now.writes.items location [] }
    {
        self.writes[location].list()
    }

    /// How many orders of the later writes of a location there are.
    pub(crate) fn orders_of(&self, location: usize) -> u64
        requires { location < length self.now.writes.items }
        ensures { (result ≡ factorial (length (slice_index_or self.now.writes.items location []))) × (1 ≤ result) }
    {
        self.writes[location].orders()
    }
}

/// The numbers of the candidates with the same runs, from `first` on.
pub(crate) struct Stretch {
    pub(crate) first: u64,
    pub(crate) size: u64,
    pub(crate) page: Page,
}

impl Drop for Stretch {
    fn drop(self) {
        let Stretch {
            first: _,
            size: _,
            page: _,
        } = self;
    }
}

/// Where a walk looks on: what is kept of the threads on the way down to a choice of runs, and the stretch of the choice.
pub(crate) struct Ahead {
    pub(crate) levels: Vec<Level>,
    pub(crate) stretch: Stretch,
}

impl Drop for Ahead {
    fn drop(self) {
        let Ahead {
            levels: _,
            stretch: _,
        } = self;
    }
}

/// What a walk has at hand: the execution that it shows, the stretch that this is in, and where it is there; and where the
/// walk looks on. What was shown before lends its room to what is shown next. Of the runs of both, it has the places among
/// those of their threads; of what was shown before, the number among the candidates with its runs, if it is known.
pub(crate) struct Scene {
    pub(crate) stretch: Stretch,
    pub(crate) graph: Graph,
    pub(crate) places: Vec<usize>,
    pub(crate) hit: Hit,
    pub(crate) ahead: Ahead,
    pub(crate) room: GraphParts,
    pub(crate) room_places: Vec<usize>,
    pub(crate) room_number: Option<u64>,
}

impl Drop for Scene {
    fn drop(self) {
        let Scene {
            stretch: _,
            graph: _,
            places: _,
            hit: _,
            ahead: _,
            room: _,
            room_places: _,
            room_number: _,
        } = self;
    }
}
