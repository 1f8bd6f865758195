//! The events of an execution, in the order of their numbers.

ghost use Rattle.std.specs.Prelude.{◌≡◌, ◌≤◌, ◌++◌, length, filter, IfOk, OnOk};
ghost use Rattle.listings.specs.Lists.{tabulate};
ghost use Rattle.events.specs.declared.event.EventId.TheVariants.{Initial};
ghost use Rattle.events.specs.Executions.{is_read};
ghost use Rattle.events.specs.Named.{names_from, thread_names, event_names, event_count, access_of};

use crate::event::{Event, EventId};
use crate::graph::Graph;
use crate::run::Run;
use std::alloc::{AllocError, Global};

/// The initial writes.
fn initial_names(alloc: Global, locations: usize) -> Result<Vec<EventId>, AllocError>
    ensures { IfOk result (λ v. v.items ≡ tabulate locations Initial) }
{
    let mut names = Vec::new(alloc);
    for location in 0..locations {
        names.push(EventId::Initial(location))?;
    }
    Ok(names)
}

/// Adds the events of a thread.
fn push_names(names: &mut Vec<EventId>, thread: usize, events: &[Event]) -> Result<(), AllocError>
    ensures { OnOk result (names.new.items ≡ names.old.items ++ names_from thread 0 events.now) }
{
    for place in 0..events.len() {
        names.push(EventId::Own(thread, place))?;
    }
    Ok(())
}

/// Adds the events of all threads.
fn push_threads(names: &mut Vec<EventId>, runs: &[Run]) -> Result<(), AllocError>
    ensures { OnOk result (names.new.items ≡ names.old.items ++ thread_names 0 runs.now) }
{
    for (thread, run) in runs.iter().enumerate() {
        push_names(names, thread, run.events())?;
    }
    Ok(())
}

/// The events of an execution, in the order of their numbers: the initial writes in the order of locations, then thread by thread
/// in program order. It fails only where memory is wanting.
pub fn event_names(alloc: Global, graph: &Graph) -> Result<Vec<EventId>, AllocError>
    ensures names { IfOk result (λ v. v.items ≡ event_names graph.now) }
    ensures count { IfOk result (λ v. length v.items ≡ event_count graph.now) }
    ensures few { IfOk result (λ _. event_count graph.now ≤ 64) }
{
    let mut names = initial_names(alloc, graph.init().len())?;
    push_threads(&mut names, graph.runs())?;
    Ok(names)
}

/// The reads among these events.
pub(super) fn read_names(
    alloc: Global,
    graph: &Graph,
    events: &[EventId],
) -> Result<Vec<EventId>, AllocError>
    ensures { IfOk result (λ v. v.items ≡ filter (λ e. is_read (access_of graph.now e)) events.now) }
{
    let mut reads = Vec::new(alloc);
    for event in events {
        if graph.access(*event).is_read() {
            reads.push(*event)?;
        }
    }
    Ok(reads)
}
