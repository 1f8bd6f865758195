//! Tests.

ghost use Rattle.std.specs.Prelude.{◌≡◌, IfOk};
ghost use Rattle.litmus_value.specs.Limits.{IsTest};

mod equality;
mod spelling;

use crate::test::spelling::key_of;
use conditions::{Binding, Cond, Place};
use keys::Key;
use litmus_tree::Thread;
use std::alloc::{AllocError, Global};
use std::marker::Model;
use std::sync::Arc;
use wb_text::Name;

/// What a test is made of.
#[derive(Drop)]
struct Parts {
    name: Name,
    initial: Vec<Binding>,
    threads: Vec<Thread>,
    condition: Cond,
    listed: Vec<Place>,
    locations: Vec<Name>,
    /// What all these are written as.
    key: Key,
}

/// A litmus test, which its copies share. Contracts see its tree, which is within the limits and names nothing that isn't there.
pub struct Test {
    parts: Arc<Parts>,
}

// A function of its own: whoever holds one drops it by a call.
impl Drop for Test {
    fn drop(self) {
        let Test { parts: _ } = self;
    }
}

impl Model for Test {
    ghost use Rattle.std.specs.Arc.{arc_value};
    ghost use Rattle.litmus_tree.specs.Tree.{Litmus};
    ghost use Rattle.litmus_tree.specs.Codes.{coded_litmus};

    ghost Value = { Litmus };

    ghost coded = { coded_litmus };

    ghost use Rattle.litmus_value.specs.Tests.{litmus_of, IsKept};

    ghost view = { λ t. litmus_of (arc_value t.parts) };

    ghost invariant = { λ t. IsKept (arc_value t.parts) };
}

impl Test {
    /// A test of these parts.
    pub fn new(
        alloc: Global,
        name: Name,
        initial: Vec<Binding>,
        threads: Vec<Thread>,
        condition: Cond,
        listed: Vec<Place>,
        locations: Vec<Name>,
    ) -> Result<Self, AllocError>
        requires { IsTest (record { name = name; initial = initial.items; threads = threads.items; condition = condition; listed = listed.items; locations = locations.items }) }
        ensures { IfOk result (λ t. t ≡ record { name = name; initial = initial.items; threads = threads.items; condition = condition; listed = listed.items; locations = locations.items }) }
    {
        let key = key_of(
            alloc, &name, &initial, &threads, &condition, &listed, &locations,
        )?;
        let parts = Parts {
            name,
            initial,
            threads,
            condition,
            listed,
            locations,
            key,
        };
        Ok(Test {
            parts: Arc::new(alloc, parts)?,
        })
    }

    /// The same test, kept once more.
    pub fn copy(&self) -> Result<Test, AllocError>
        ensures { IfOk result (λ t. t ≡ self.now) }
    {
        Ok(Test {
            parts: Arc::try_clone(&self.parts)?,
        })
    }

    /// The name that the head gives.
    pub fn name(&self) -> &Name
        ensures { result.now ≡ self.now.name }
    {
        &self.parts.name
    }

    /// The places that the initial state gives a value, once each. Every other place begins with 0.
    pub fn initial(&self) -> &[Binding]
        ensures { result.now ≡ self.now.initial }
    {
        &self.parts.initial
    }

    /// The threads, in order.
    pub fn threads(&self) -> &[Thread]
        ensures value { result.now ≡ self.now.threads }
        ensures test { IsTest self.now }
    {
        &self.parts.threads
    }

    /// The condition.
    pub fn condition(&self) -> &Cond
        ensures { result.now ≡ self.now.condition }
    {
        &self.parts.condition
    }

    /// The places that `locations` lists, in order.
    pub fn listed(&self) -> &[Place]
        ensures { result.now ≡ self.now.listed }
    {
        &self.parts.listed
    }

    /// The locations, in the order of their first appearance in the text.
    pub fn locations(&self) -> &[Name]
        ensures { result.now ≡ self.now.locations }
    {
        &self.parts.locations
    }
}
