//! Whether the final state of an execution has the proposition of its test.

ghost use Rattle.std.specs.Prelude.{◌≡◌, IfOk};
ghost use Rattle.slices.specs.Questions.{IsAnswer};

use crate::slot::{Slot, row, slots};
use conditions::{Place, State, holds, observed};
use events::Graph;
use litmus_value::Test;
use std::alloc::{AllocError, Global};
use std::marker::Model;

/// The proposition of a test, and where the values that it speaks of stand in an execution. Contracts see the test.
pub struct Question<'t> {
    test: &'t Test,
    places: Vec<Place>,
    slots: Vec<Slot>,
}

// A function of its own: whoever holds one drops it by a call.
impl<'t> Drop for Question<'t> {
    fn drop(self) {
        let Question {
            test: _,
            places: _,
            slots: _,
        } = self;
    }
}

impl<'t> Model for Question<'t> {
    ghost use Rattle.std.specs.Prelude.{◌≡◌, map};
    ghost use Rattle.conditions.specs.States.{AreObserved};
    ghost use Rattle.litmus_tree.specs.Codes.{coded_litmus};
    ghost use Rattle.litmus_tree.specs.Tree.{Litmus};
    ghost use Rattle.slices.specs.Slots.{slot_of};

    ghost Value = { Litmus };

    ghost coded = { coded_litmus };

    ghost view = { λ q. q.test.now };

    ghost invariant = { λ q. record { observed : AreObserved q.test.now.condition q.test.now.listed q.places.items; slots : q.slots.items ≡ map (slot_of q.test.now) q.places.items } };
}

impl<'t> Question<'t> {
    /// The question of a test.
    pub fn of(alloc: Global, test: &'t Test) -> Result<Self, AllocError>
        ensures { IfOk result (λ q. q ≡ test.entry.now) }
    {
        let places = observed(alloc, test.condition(), test.listed())?;
        let slots = slots(alloc, test, &places)?;
        Ok(Question {
            test,
            places,
            slots,
        })
    }

    /// Whether the final state of an execution has the proposition.
    pub fn answer(&self, alloc: Global, graph: &Graph) -> Result<bool, AllocError>
        ensures { IfOk result (λ has. IsAnswer self.now graph.now has) }
    {
        let state = row(alloc, &self.slots, graph)?;
        let prop = self.test.condition().prop();
        Ok(holds(prop, &State::new(&self.places, state.values())))
    }
}
