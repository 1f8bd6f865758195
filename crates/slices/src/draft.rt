//! Final states at hand.

ghost use Rattle.std.specs.Prelude.{◌≡◌, ◌+◌, ◌^◌, ◌≤◌, [], ◌∷◌, ◌++◌, Some, length, map, IfOk, OnOk};
ghost use Rattle.slices.specs.Numbers.{HasNumber};
ghost use Rattle.slices.specs.Slots.{slot_by, slot_value};

use crate::row::Row;
use crate::slot::Slot;
use events::{EventId, Graph};
use std::alloc::{AllocError, Global};
use std::mem::replace;

/// The values at the observed places, and the number whose digits they are, as long as each is one. The list is used again for the next state.
#[derive(Drop)]
pub(crate) struct Draft {
    pub(crate) base: u64,
    pub(crate) values: Vec<u32>,
    pub(crate) number: Option<u64>,
}

/// Of a state at more places no number is made: it takes a while to make, and most of these states come but once.
const MOST_PLACES: usize = 8;

/// The base of numbers with so many digits, of which the greatest has 63 bits at most.
#[tactic(auto, using(crate::proofs::Numbered::no_digits))]
fn base_for(places: usize) -> u64
    ensures { result ^ places ≤ 2 ^ 63 }
{
    if places > MOST_PLACES {
        return 0;
    }
    if places < 2 {
        return 1 << 32;
    }
    1 << (63 / places)
}

impl Draft {
    /// Nothing yet, for so many places.
    pub(crate) fn new(alloc: Global, places: usize) -> Self
        ensures room { result.base ^ places ≤ 2 ^ 63 }
    {
        Draft {
            base: base_for(places),
            values: Vec::new(alloc),
            number: Some(0),
        }
    }

    /// Takes all values away, and makes room for so many.
    fn clear(&mut self, places: usize) -> Result<(), AllocError>
        ensures base { self.new.base ≡ self.old.base }
        ensures values { self.new.values.items ≡ [] }
    {
        self.values.clear();
        self.values.try_reserve(places)
    }

    /// Adds a value to those that have this number, and gives the number of them all.
    fn push(&mut self, number: Option<u64>, value: u32) -> Result<Option<u64>, AllocError>
        requires number { HasNumber self.old.base self.old.values.items number }
        requires room { self.old.base ^ (length self.old.values.items + 1) ≤ 2 ^ 63 }
        ensures base { self.new.base ≡ self.old.base }
        ensures values { OnOk result (self.new.values.items ≡ self.old.values.items ++ value ∷ []) }
        ensures number { IfOk result (HasNumber self.new.base self.new.values.items) }
    {
        self.values.push(value)?;
        let digit = u64::from(value);
        match number {
            Some(number) if digit < self.base => Ok(Some(number * self.base + digit)),
            _ => Ok(None),
        }
    }

    /// Takes the values in an execution.
    pub(crate) fn show(&mut self, slots: &[Slot], graph: &Graph) -> Result<(), AllocError>
        requires room { self.old.base ^ length slots.now ≤ 2 ^ 63 }
        ensures base { self.new.base ≡ self.old.base }
        ensures values { OnOk result (self.new.values.items ≡ map (slot_value graph.now) slots.now) }
        ensures number { OnOk result (HasNumber self.new.base self.new.values.items self.new.number) }
    {
        self.clear(slots.len())?;
        let mut number = Some(0);
        for slot in slots {
            number = self.push(number, slot.value_in(graph))?;
        }
        self.number = number;
        Ok(())
    }

    /// Takes the values where these writes stand last, one of each location.
    pub(crate) fn show_by(
        &mut self,
        slots: &[Slot],
        graph: &Graph,
        lasts: &[EventId],
    ) -> Result<(), AllocError>
        requires room { self.old.base ^ length slots.now ≤ 2 ^ 63 }
        ensures base { self.new.base ≡ self.old.base }
        ensures values { OnOk result (self.new.values.items ≡ map (slot_by graph.now lasts.now) slots.now) }
        ensures number { OnOk result (HasNumber self.new.base self.new.values.items self.new.number) }
    {
        self.clear(slots.len())?;
        let mut number = Some(0);
        for slot in slots {
            number = self.push(number, slot.value_by(graph, lasts))?;
        }
        self.number = number;
        Ok(())
    }

    /// Takes the state away, to be kept.
    pub(crate) fn take_row(&mut self) -> Row
        ensures base { self.new.base ≡ self.old.base }
        ensures row { result ≡ self.old.values.items }
    {
        let next = Vec::new(*self.values.allocator());
        Row::new(replace(&mut self.values, next))
    }
}
