//! The arrows of a drawing.

ghost use Rattle.std.specs.Prelude.{◌≡◌, ◌++◌, IfOk, OnOk, filter, flat_map, map, zip};
ghost use Rattle.events.specs.Executions.{is_read};
ghost use Rattle.events.specs.Named.{event_names, read_names, access_of};
ghost use Rattle.drawing.specs.Arrows.{arrow, links, steps, are_of_one_thread, is_within_thread, is_exchange, po_arrows, rf_arrows, co_arrows, overtaken, fr_arrows, rmw_arrows, arrows_of};

use crate::event::access;
use crate::scene::Scene;
use events::{Access, Coherence, EventId, Graph};
use std::alloc::{AllocError, Global};

/// The relations that are drawn.
#[derive(Clone, Copy)]
pub(crate) enum Relation {
    Po,
    Rf,
    Co,
    Fr,
    Rmw,
}

/// An arrow from one event to another.
#[derive(Clone, Copy)]
pub(crate) struct Arrow {
    pub from: EventId,
    pub to: EventId,
}

/// Adds the arrows from the first event to the others, one after another.
fn push_links(arrows: &mut Vec<Arrow>, first: EventId, others: &[EventId]) -> Result<(), AllocError>
    ensures { OnOk result (arrows.new.items ≡ arrows.old.items ++ links first others.now) }
{
    let mut last = first;
    for event in others {
        arrows.push(Arrow {
            from: last,
            to: *event,
        })?;
        last = *event;
    }
    Ok(())
}

/// Adds the arrows from each event to the one behind it.
fn push_steps(arrows: &mut Vec<Arrow>, events: &[EventId]) -> Result<(), AllocError>
    ensures { OnOk result (arrows.new.items ≡ arrows.old.items ++ steps events.now) }
{
    match events.split_first() {
        Some((first, others)) => push_links(arrows, *first, others),
        None => Ok(()),
    }
}

fn are_of_one_thread(first: EventId, second: EventId) -> bool
    ensures { result ≡ are_of_one_thread first second }
{
    match first {
        EventId::Initial(_) => false,
        EventId::Own(thread, _) => match second {
            EventId::Initial(_) => false,
            EventId::Own(other, _) => thread == other,
        },
    }
}

/// Those of the arrows that stay within a thread.
fn within_threads(alloc: Global, arrows: &[Arrow]) -> Result<Vec<Arrow>, AllocError>
    ensures { IfOk result (λ v. v.items ≡ filter is_within_thread arrows.now) }
{
    arrows
        .iter()
        .copied()
        .filter(|arrow| are_of_one_thread(arrow.from, arrow.to))
        .collect(alloc)
}

fn po_arrows(alloc: Global, scene: &Scene<'_>) -> Result<Vec<Arrow>, AllocError>
    ensures { IfOk result (λ v. v.items ≡ po_arrows scene.now.graph) }
{
    let mut steps = Vec::new(alloc);
    push_steps(&mut steps, scene.events())?;
    within_threads(alloc, &steps)
}

/// The reads among these events.
fn reads(alloc: Global, graph: &Graph, events: &[EventId]) -> Result<Vec<EventId>, AllocError>
    ensures { IfOk result (λ v. v.items ≡ filter (λ e. is_read (access_of graph.now e)) events.now) }
{
    events
        .iter()
        .copied()
        .filter(|event| access(graph, *event).is_read())
        .collect(alloc)
}

/// An arrow from each write to the read beside it.
fn zipped(alloc: Global, writes: &[EventId], reads: &[EventId]) -> Result<Vec<Arrow>, AllocError>
    ensures { IfOk result (λ v. v.items ≡ map (λ p. arrow p.0 p.1) (zip writes.now reads.now)) }
{
    let mut arrows = Vec::new(alloc);
    let mut left = reads;
    for write in writes {
        match left.split_first() {
            Some((read, others)) => {
                arrows.push(Arrow {
                    from: *write,
                    to: *read,
                })?;
                left = others;
            }
            None => return Ok(arrows),
        }
    }
    Ok(arrows)
}

#[tactic(auto, unfolding(events::specs::Named::read_names))]
fn rf_arrows(alloc: Global, scene: &Scene<'_>) -> Result<Vec<Arrow>, AllocError>
    ensures { IfOk result (λ v. v.items ≡ rf_arrows scene.now.graph) }
{
    let reads = reads(alloc, scene.graph(), scene.events())?;
    zipped(alloc, scene.graph().rf(), &reads)
}

fn co_arrows(alloc: Global, orders: &[Coherence]) -> Result<Vec<Arrow>, AllocError>
    ensures { IfOk result (λ v. v.items ≡ flat_map steps orders.now) }
{
    let mut arrows = Vec::new(alloc);
    for order in orders {
        push_steps(&mut arrows, order.writes())?;
    }
    Ok(arrows)
}

/// Adds an arrow from the read of an arrow of rf to each write that comes next after its write.
fn push_overtaken(arrows: &mut Vec<Arrow>, co: &[Arrow], read: Arrow) -> Result<(), AllocError>
    ensures { OnOk result (arrows.new.items ≡ arrows.old.items ++ overtaken co.now read) }
{
    for step in co {
        if step.from == read.from {
            arrows.push(Arrow {
                from: read.to,
                to: step.to,
            })?;
        }
    }
    Ok(())
}

fn fr_among(alloc: Global, co: &[Arrow], rf: &[Arrow]) -> Result<Vec<Arrow>, AllocError>
    ensures { IfOk result (λ v. v.items ≡ flat_map (overtaken co.now) rf.now) }
{
    let mut arrows = Vec::new(alloc);
    for read in rf {
        push_overtaken(&mut arrows, co, *read)?;
    }
    Ok(arrows)
}

fn fr_arrows(alloc: Global, scene: &Scene<'_>) -> Result<Vec<Arrow>, AllocError>
    ensures { IfOk result (λ v. v.items ≡ fr_arrows scene.now.graph) }
{
    let co = co_arrows(alloc, scene.graph().co())?;
    let rf = rf_arrows(alloc, scene)?;
    fr_among(alloc, &co, &rf)
}

fn is_exchange(graph: &Graph, arrow: Arrow) -> bool
    ensures { result ≡ is_exchange graph.now arrow }
{
    access(graph, arrow.from) == Access::ExRead && access(graph, arrow.to) == Access::ExWrite
}

/// Those of the arrows that lead from the read to the write of an exchange or an addition.
fn exchanges(alloc: Global, graph: &Graph, arrows: &[Arrow]) -> Result<Vec<Arrow>, AllocError>
    ensures { IfOk result (λ v. v.items ≡ filter (is_exchange graph.now) arrows.now) }
{
    arrows
        .iter()
        .copied()
        .filter(|arrow| is_exchange(graph, *arrow))
        .collect(alloc)
}

fn rmw_arrows(alloc: Global, scene: &Scene<'_>) -> Result<Vec<Arrow>, AllocError>
    ensures { IfOk result (λ v. v.items ≡ rmw_arrows scene.now.graph) }
{
    let po = po_arrows(alloc, scene)?;
    exchanges(alloc, scene.graph(), &po)
}

impl Scene<'_> {
    /// The arrows of a relation. Those of po and co are the steps from one event to the next alone.
    pub(crate) fn arrows(&self, alloc: Global, relation: Relation) -> Result<Vec<Arrow>, AllocError>
        ensures { IfOk result (λ v. v.items ≡ arrows_of self.now.graph relation) }
    {
        match relation {
            Relation::Po => po_arrows(alloc, self),
            Relation::Rf => rf_arrows(alloc, self),
            Relation::Co => co_arrows(alloc, self.graph().co()),
            Relation::Fr => fr_arrows(alloc, self),
            Relation::Rmw => rmw_arrows(alloc, self),
        }
    }
}
