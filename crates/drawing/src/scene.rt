//! An execution whose events have numbers and names.

ghost use Rattle.std.specs.Prelude.{◌≡◌, ◌++◌, IfOk, OnOk, filter, position};
ghost use Rattle.events.specs.contracts.event.EventIdPartialEq.TheImpl.{ghosts as event_equality};
ghost use Rattle.events.specs.Named.{event_names};
ghost use Rattle.drawing.specs.Naming.{is_in, members, number_of, event_of, place_of, name_of};
ghost use Rattle.drawing.specs.Telling.{called, location_text};

use crate::bytes::push_letters;
use crate::group::Group;
use events::{EventId, Graph, event_names};
use std::alloc::{AllocError, Global};
use std::marker::Model;
use wb_text::Name;

/// An execution with its events by their numbers, and the names of the locations.
#[derive(Drop)]
pub(crate) struct Scene<'a> {
    graph: &'a Graph,
    locations: &'a [Name],
    // The events by their numbers.
    events: Vec<EventId>,
}

impl<'a> Model for Scene<'a> {
    ghost use Rattle.std.specs.Prelude.{◌≡◌};
    ghost use Rattle.events.specs.Named.{event_names};
    ghost use Rattle.drawing.specs.Naming.{SceneValue};

    ghost Value = { SceneValue };

    ghost view = { λ s. record { graph = s.graph.now; locations = s.locations.now } };

    ghost invariant = { λ s. s.events.items ≡ event_names s.graph.now };
}

/// Those of the events that are in the group.
fn chosen(alloc: Global, events: &[EventId], group: Group) -> Result<Vec<EventId>, AllocError>
    ensures { IfOk result (λ v. v.items ≡ filter (is_in group) events.now) }
{
    events
        .iter()
        .copied()
        .filter(|event| group.has(*event))
        .collect(alloc)
}

/// Where the event stands first.
fn position(events: &[EventId], event: EventId) -> Option<usize>
    ensures { result ≡ position (λ d. event_equality.eq d event) events.now }
{
    events.iter().position(|other| *other == event)
}

impl<'a> Scene<'a> {
    /// The scene of an execution, with the names of the locations.
    pub(crate) fn of(
        alloc: Global,
        graph: &'a Graph,
        locations: &'a [Name],
    ) -> Result<Self, AllocError>
        ensures { IfOk result (λ s. s ≡ record { graph = graph.entry.now; locations = locations.entry.now }) }
    {
        Ok(Scene {
            graph,
            locations,
            events: event_names(alloc, graph)?,
        })
    }

    /// The execution.
    pub(crate) fn graph(&self) -> &Graph
        ensures { result.now ≡ self.now.graph }
    {
        self.graph
    }

    /// The events by their numbers.
    pub(crate) fn events(&self) -> &[EventId]
        ensures { result.now ≡ event_names self.now.graph }
    {
        &self.events
    }

    /// The events of a group, in the order of their numbers.
    pub(crate) fn members(&self, alloc: Global, group: Group) -> Result<Vec<EventId>, AllocError>
        ensures { IfOk result (λ v. v.items ≡ members self.now.graph group) }
    {
        chosen(alloc, self.events(), group)
    }

    /// The number of an event.
    #[tactic(auto, unfolding(crate::specs::Naming::number_of))]
    pub(crate) fn number(&self, event: EventId) -> usize
        ensures { result ≡ number_of self.now.graph event }
    {
        match position(self.events(), event) {
            Some(number) => number,
            None => 0,
        }
    }

    /// The event with this number.
    #[tactic(auto, unfolding(crate::specs::Naming::event_of))]
    pub(crate) fn event(&self, number: usize) -> EventId
        ensures { result ≡ event_of self.now.graph number }
    {
        match self.events().get(number) {
            Some(event) => *event,
            None => EventId::Initial(0),
        }
    }

    // The place of the event with this number, where the initial writes come last.
    fn place(&self, number: usize) -> usize
        ensures { result ≡ place_of self.now.graph number }
    {
        let initial = self.graph.init().len();
        if number < initial {
            number + self.events().len().saturating_sub(initial)
        } else {
            number - initial
        }
    }

    /// Adds what the event with this number is called.
    #[tactic(auto, unfolding(crate::specs::Naming::name_of))]
    pub(crate) fn push_name(&self, out: &mut Vec<u8>, number: usize) -> Result<(), AllocError>
        ensures { OnOk result (out.new.items ≡ out.old.items ++ name_of self.now.graph number) }
    {
        push_letters(out, self.place(number))
    }

    /// Adds what the event is called.
    pub(crate) fn push_called(&self, out: &mut Vec<u8>, event: EventId) -> Result<(), AllocError>
        ensures { OnOk result (out.new.items ≡ out.old.items ++ called self.now event) }
    {
        self.push_name(out, self.number(event))
    }

    /// The name of a location.
    pub(crate) fn location(&self, location: usize) -> &[u8]
        ensures { result.now ≡ location_text self.now location }
    {
        match self.locations.get(location) {
            Some(name) => name.bytes(),
            None => b"",
        }
    }
}
