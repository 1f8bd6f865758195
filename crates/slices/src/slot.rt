//! Where the final values of observed places stand in an execution.

ghost use Rattle.std.specs.Prelude.{◌≡◌, IfOk, map};
ghost use Rattle.c11_threads.specs.Contents.{place_of};
ghost use Rattle.slices.specs.Finals.{final_location};
ghost use Rattle.slices.specs.Slots.{slot_by, slot_of, slot_value};
ghost use Rattle.slices.specs.Ways.{is_location, is_seen};

use crate::row::Row;
use c11_threads::place_of;
use candidates::write_value;
use conditions::Place;
use events::{EventId, Graph};
use litmus_value::Test;
use std::alloc::{AllocError, Global};

/// Where a place's value stands: in the run of a thread, at the place of the register among its registers, or
/// in the coherence order of a location, by the place of its name among the locations.
#[derive(Clone, Copy)]
pub enum Slot {
    Register(usize, usize),
    Location(usize),
}

/// Where the values of the places stand.
pub fn slots(alloc: Global, test: &Test, places: &[Place]) -> Result<Vec<Slot>, AllocError>
    ensures { IfOk result (λ v. v.items ≡ map (slot_of test.now) places.now) }
{
    let mut slots = Vec::with_capacity(alloc, places.len())?;
    for place in places {
        slots.push(Slot::of(test, place))?;
    }
    Ok(slots)
}

/// The values in an execution.
pub fn row(alloc: Global, slots: &[Slot], graph: &Graph) -> Result<Row, AllocError>
    ensures { IfOk result (λ r. r ≡ map (slot_value graph.now) slots.now) }
{
    let mut values = Vec::with_capacity(alloc, slots.len())?;
    for slot in slots {
        values.push(slot.value_in(graph))?;
    }
    Ok(Row::new(values))
}

/// Whether the value of a location is among those that stand there.
pub fn is_seen(slots: &[Slot], location: usize) -> bool
    ensures { result ≡ is_seen slots.now location }
{
    slots.iter().any(
        |slot|
            ensures { result ≡ is_location location slot.now }
        { slot.is_location(location) },
    )
}

impl Slot {
    fn of(test: &Test, place: &Place) -> Slot
        ensures { result ≡ slot_of test.now place.now }
    {
        match place {
            Place::Reg(thread, name) => match test.threads().get(*thread) {
                Some(program) => Slot::Register(*thread, place_of(program.registers(), name)),
                None => Slot::Register(*thread, 0),
            },
            Place::Loc(name) => Slot::Location(place_of(test.locations(), name)),
        }
    }

    pub(crate) fn value_in(self, graph: &Graph) -> u32
        ensures { result ≡ slot_value graph.now self }
    {
        match self {
            Slot::Register(thread, register) => match graph.runs().get(thread) {
                Some(run) => run.registers().get(register).copied().unwrap_or(0),
                None => 0,
            },
            Slot::Location(location) => final_location(graph, location),
        }
    }

    /// The value where these writes stand last.
    pub(crate) fn value_by(self, graph: &Graph, lasts: &[EventId]) -> u32
        ensures { result ≡ slot_by graph.now lasts.now self }
    {
        match self {
            Slot::Register(_, _) => self.value_in(graph),
            Slot::Location(location) => {
                let initial = EventId::Initial(location);
                let last = lasts.get(location).copied().unwrap_or(initial);
                write_value(graph.init(), graph.runs(), last)
            }
        }
    }

    fn is_location(self, location: usize) -> bool
        ensures { result ≡ is_location location self }
    {
        match self {
            Slot::Register(_, _) => false,
            Slot::Location(other) => other == location,
        }
    }
}

/// The value of the last write in the coherence order of a location.
fn final_location(graph: &Graph, location: usize) -> u32
    ensures { result ≡ final_location graph.now location }
{
    let initial = EventId::Initial(location);
    match graph.co().get(location) {
        Some(order) => {
            let last = order.writes().last().copied().unwrap_or(initial);
            write_value(graph.init(), graph.runs(), last)
        }
        None => write_value(graph.init(), graph.runs(), initial),
    }
}
