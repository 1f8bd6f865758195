//! The text of an event.

ghost use Rattle.std.specs.Prelude.{◌≡◌, ◌++◌, OnOk, MatchOption, codes};
ghost use Rattle.events.specs.Named.{no_event, event_at, access_of};
ghost use Rattle.drawing.specs.Telling as telling;

use crate::bytes::{push_bytes, push_number};
use crate::scene::Scene;
use events::{Access, Event, EventId, Graph, Order};
use std::alloc::AllocError;

/// The event of a thread at this place of its run.
#[tactic(auto, unfolding(events::specs::Named::event_at))]
fn event_at(graph: &Graph, thread: usize, place: usize) -> Option<&Event>
    ensures { MatchOption result (event_at graph.now thread place ≡ no_event) (λ e. e.now ≡ event_at graph.now thread place) }
{
    match graph.runs().get(thread) {
        Some(run) => run.events().get(place),
        None => None,
    }
}

/// What an event does.
pub(crate) fn access(graph: &Graph, event: EventId) -> Access
    ensures { result ≡ access_of graph.now event }
{
    match event {
        EventId::Initial(_) => Access::Write,
        EventId::Own(thread, place) => match event_at(graph, thread, place) {
            Some(event) => event.access,
            None => Access::Fence,
        },
    }
}

fn order_text<'a>(order: Order) -> &'a [u8]
    ensures { result.now ≡ telling.order_text order }
{
    match order {
        Order::NoOrder => b"",
        Order::Na => b" na",
        Order::Rlx => b" rlx",
        Order::Acq => b" acq",
        Order::Rel => b" rel",
        Order::AcqRel => b" acq_rel",
        Order::Sc => b" sc",
    }
}

/// Adds what kind of access it is, its location, its value and its order.
fn push_content(
    scene: &Scene<'_>,
    out: &mut Vec<u8>,
    kind: &[u8],
    event: &Event,
) -> Result<(), AllocError>
    ensures { OnOk result (out.new.items ≡ out.old.items ++ (kind.now ++ telling.content_text scene.now event.now)) }
{
    push_bytes(out, kind)?;
    push_bytes(out, scene.location(event.loc))?;
    push_bytes(out, b"=")?;
    push_number(out, event.value as usize)?;
    push_bytes(out, order_text(event.order))
}

/// Adds the text of a fence.
fn push_fence(out: &mut Vec<u8>, order: Order) -> Result<(), AllocError>
    ensures { OnOk result (out.new.items ≡ out.old.items ++ (codes "F" ++ telling.order_text order)) }
{
    push_bytes(out, b"F")?;
    push_bytes(out, order_text(order))
}

/// Adds the text of an event of a thread.
fn push_access(scene: &Scene<'_>, out: &mut Vec<u8>, event: &Event) -> Result<(), AllocError>
    ensures { OnOk result (out.new.items ≡ out.old.items ++ telling.access_text scene.now event.now.access event.now) }
{
    match event.access {
        Access::Read => push_content(scene, out, b"R ", event),
        Access::ExRead => push_content(scene, out, b"R ", event),
        Access::Write => push_content(scene, out, b"W ", event),
        Access::ExWrite => push_content(scene, out, b"W ", event),
        Access::Fence => push_fence(out, event.order),
    }
}

/// Adds the text of the event of a thread at this place of its run.
fn push_own(
    scene: &Scene<'_>,
    out: &mut Vec<u8>,
    thread: usize,
    place: usize,
) -> Result<(), AllocError>
    ensures { OnOk result (out.new.items ≡ out.old.items ++ telling.access_text scene.now (event_at scene.now.graph thread place).access (event_at scene.now.graph thread place)) }
{
    match event_at(scene.graph(), thread, place) {
        Some(event) => push_access(scene, out, event),
        None => push_bytes(out, b"F"),
    }
}

/// Adds the text of an initial write.
fn push_initial(scene: &Scene<'_>, out: &mut Vec<u8>, location: usize) -> Result<(), AllocError>
    ensures { OnOk result (out.new.items ≡ out.old.items ++ telling.initial_text scene.now location) }
{
    let value = match scene.graph().init().get(location) {
        Some(value) => *value,
        None => 0,
    };
    push_bytes(out, b"init ")?;
    push_bytes(out, scene.location(location))?;
    push_bytes(out, b"=")?;
    push_number(out, value as usize)
}

impl Scene<'_> {
    /// Adds what an event does: `R x=1 rlx`, `F sc` or `init x=0`. On an error the bytes may hold a part of it.
    #[tactic(auto, unfolding(crate::specs::Telling::event_text))]
    pub(crate) fn push_event(&self, out: &mut Vec<u8>, event: EventId) -> Result<(), AllocError>
        ensures { OnOk result (out.new.items ≡ out.old.items ++ telling.event_text self.now event) }
    {
        match event {
            EventId::Initial(location) => push_initial(self, out, location),
            EventId::Own(thread, place) => push_own(self, out, thread, place),
        }
    }
}
