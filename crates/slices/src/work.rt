//! What is evaluated: a test under a model.

ghost use Rattle.std.specs.Prelude.{◌≡◌, ◌↔◌, List, map, IsTrue, IfOk, IfErr};
ghost use Rattle.std.specs.Arc.{arc_value};
ghost use Rattle.cat_eval.specs.Orderless.{IsOrderless};
ghost use Rattle.candidates.specs.Faults.{IsSpaceFault};
ghost use Rattle.conditions.specs.States.{AreObserved};
ghost use Rattle.conditions.specs.declared.place.Place.{Place};
ghost use Rattle.slices.specs.Parts.{IsAdmitted, test_size};
ghost use Rattle.slices.specs.Slots.{slot_of};

use crate::slot::{Slot, slots};
use candidates::{Space, SpaceFault};
use cat_eval::is_orderless;
use cat_model::Model;
use conditions::{Place, observed};
use litmus_value::Test;
use std::alloc::{AllocError, Global};
use std::sync::Arc;

/// A test under a model, how many numbers the test has, whether it is known that the model doesn't look at the orders, the observed places, and
/// where their values stand in an execution.
pub struct Work {
    test: Test,
    model: Model,
    size: u64,
    orderless: bool,
    // Each finding of the work has them, too.
    places: Arc<Vec<Place>>,
    slots: Vec<Slot>,
}

// A function of its own: whoever holds one drops it by a call.
impl Drop for Work {
    fn drop(self) {
        let Work {
            test: _,
            model: _,
            size: _,
            orderless: _,
            places: _,
            slots: _,
        } = self;
    }
}

impl std::marker::Model for Work {
    ghost use Rattle.std.specs.Prelude.{◌≡◌, map, IsTrue};
    ghost use Rattle.std.specs.Arc.{arc_value};
    ghost use Rattle.cat_eval.specs.Orderless.{IsOrderless};
    ghost use Rattle.conditions.specs.States.{AreObserved};
    ghost use Rattle.slices.specs.Parts.{IsAdmitted, test_size};
    ghost use Rattle.slices.specs.Slots.{slot_of};
    ghost use Rattle.slices.specs.Works.{WorkValue};
    ghost use Rattle.slices.specs.Codes.{coded_work};

    ghost Value = { WorkValue };

    ghost coded = { coded_work };

    ghost view = { λ w. record { test = w.test; model = w.model } };

    ghost invariant = { λ w. record { size : w.size ≡ test_size w.test; admitted : IsAdmitted w.test; orderless : IsTrue w.orderless → IsOrderless w.model.items; observed : AreObserved w.test.condition w.test.listed (arc_value w.places).items; slots : w.slots.items ≡ map (slot_of w.test) (arc_value w.places).items } };
}

/// A work that is kept more than once. Contracts see the work.
pub struct WorkRef {
    work: Arc<Work>,
}

// A function of its own: whoever holds one drops it by a call.
impl Drop for WorkRef {
    fn drop(self) {
        let WorkRef { work: _ } = self;
    }
}

impl std::marker::Model for WorkRef {
    ghost use Rattle.std.specs.Arc.{arc_value};
    ghost use Rattle.slices.specs.Works.{WorkValue};
    ghost use Rattle.slices.specs.Codes.{coded_work};

    ghost Value = { WorkValue };

    ghost coded = { coded_work };

    ghost view = { λ w. arc_value w.work };
}

impl Work {
    /// The test under the model.
    pub fn new(alloc: Global, test: Test, model: Model) -> Result<Self, SpaceFault>
        ensures work { IfOk result (λ w. w ≡ record { test = test; model = model }) }
        ensures admitted { IfOk result (λ w. IsAdmitted w.test) }
        // A thread has too many runs, the test has too many candidates, or memory ran out.
        ensures fault { IfErr result (IsSpaceFault test) }
    {
        let space = Space::new(alloc, &test)?;
        let size = space.size();
        let orderless = is_orderless(&model);
        let places = observed(alloc, test.condition(), test.listed())?;
        let slots = slots(alloc, &test, &places)?;
        let places = Arc::new(alloc, places)?;
        Ok(Work {
            test,
            model,
            size,
            orderless,
            places,
            slots,
        })
    }

    /// The test.
    pub fn test(&self) -> &Test
        ensures { result.now ≡ self.now.test }
    {
        &self.test
    }

    /// The model.
    pub fn model(&self) -> &Model
        ensures { result.now ≡ self.now.model }
    {
        &self.model
    }

    /// Whether it is known that the model doesn't look at the orders.
    pub(crate) fn is_orderless(&self) -> bool
        ensures { IsTrue result → IsOrderless self.now.model.items }
    {
        self.orderless
    }

    /// The observed places, in order, kept once more.
    pub(crate) fn places(&self) -> Result<Arc<Vec<Place>>, AllocError>
        ensures { IfOk result (λ places. AreObserved self.now.test.condition self.now.test.listed (arc_value places).items) }
    {
        Arc::try_clone(&self.places)
    }

    /// Where the values of the observed places stand in an execution.
    pub(crate) fn slots(&self) -> &[Slot]
        ensures { (places : List Place) → AreObserved self.now.test.condition self.now.test.listed places → result.now ≡ map (slot_of self.now.test) places }
    {
        &self.slots
    }

    /// Whether it is the same test under the same model, of the same files and versions.
    #[tactic(auto, using(litmus_tree::specs::Exact::litmus_exact, cat_model::specs::Equality::assembly_exact))]
    pub(crate) fn is_same(&self, other: &Work) -> bool
        ensures { IsTrue result ↔ (self.now ≡ other.now) }
    {
        self.test() == other.test() && self.model() == other.model()
    }

    /// How many numbers the test has.
    pub fn size(&self) -> u64
        ensures size { result ≡ test_size self.now.test }
        ensures admitted { IsAdmitted self.now.test }
    {
        self.size
    }
}

impl WorkRef {
    /// Keeps a work.
    pub fn new(alloc: Global, work: Work) -> Result<Self, AllocError>
        ensures { IfOk result (λ w. w ≡ work) }
    {
        Ok(WorkRef {
            work: Arc::new(alloc, work)?,
        })
    }

    /// The work.
    pub fn work(&self) -> &Work
        ensures { result.now ≡ self.now }
    {
        &self.work
    }

    /// Whether it is the same test under the same model, of the same files and versions.
    pub fn same(&self, other: &WorkRef) -> bool
        ensures { IsTrue result ↔ (self.now ≡ other.now) }
    {
        self.work().is_same(other.work())
    }

    /// The same work, kept once more.
    pub fn share(&self) -> Result<Self, AllocError>
        ensures { IfOk result (λ w. w ≡ self.now) }
    {
        Ok(WorkRef {
            work: Arc::try_clone(&self.work)?,
        })
    }
}
