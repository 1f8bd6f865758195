//! Event structures.

ghost use Rattle.std.specs.Prelude.{◌≡◌, ◌↔◌, IfOk, IsTrue};
ghost use Rattle.events.specs.Structures.{structure_of};

use super::names::{event_names, read_names};
use super::numbered::Numbered;
use super::numbers::first_numbers;
use crate::event::EventId;
use crate::graph::Graph;
use crate::run::{Run, are_like_runs, copy_runs};
use relations::Rel;
use std::alloc::{AllocError, Global};
use std::marker::Model;

/// An execution without its read-from map and its coherence orders, and whatever its values are: how many locations there are, what the threads
/// do, and what these alone tell. The values that it holds are those of the execution that it was made of.
#[derive(Drop)]
pub(super) struct EventStructure {
    init: Vec<u32>,
    runs: Vec<Run>,
    // The events by their numbers, and the reads among them.
    events: Vec<EventId>,
    reads: Vec<EventId>,
    // Of each thread the number of its first event.
    firsts: Vec<usize>,
    pub(super) po: Rel,
    pub(super) int: Rel,
    pub(super) loc: Rel,
}

impl Model for EventStructure {
    ghost use Rattle.std.specs.Prelude.{◌≡◌, ◌≤◌};
    ghost use Rattle.relations.specs.Relation.{IsExactly};
    ghost use Rattle.events.specs.Named.{event_names, event_count, read_names, NamedRel};
    ghost use Rattle.events.specs.Rows.{AreFirsts};
    ghost use Rattle.events.specs.Structures.{Structure, structured, bare};
    ghost use Rattle.events.specs.declared.named.RelName.TheVariants as names;

    ghost Value = { Structure };

    ghost view = { λ s. structured s.init.items s.runs.items };

    ghost invariant = { λ s. let g = bare (record { init = s.init.items; runs = s.runs.items }) in
        record { events : s.events.items ≡ event_names g; reads : s.reads.items ≡ read_names g; firsts : AreFirsts g s.firsts.items; few : event_count g ≤ 64; po : IsExactly (event_count g) (NamedRel g names.Po) s.po; int : IsExactly (event_count g) (NamedRel g names.Int) s.int; loc : IsExactly (event_count g) (NamedRel g names.Loc) s.loc } };
}

impl EventStructure {
    /// The structure of an execution.
    pub(super) fn of(alloc: Global, graph: &Graph) -> Result<Self, AllocError>
        ensures { IfOk result (λ s. s ≡ structure_of graph.now) }
    {
        let events = event_names(alloc, graph)?;
        let reads = read_names(alloc, graph, &events)?;
        let firsts = first_numbers(alloc, graph)?;
        let mut po = Rel::empty(0);
        let mut int = Rel::empty(0);
        let mut loc = Rel::empty(0);
        let numbered = Numbered::new(graph, &events, &reads, &firsts);
        numbered.threads_into(&mut po, &mut int);
        numbered.locations_into(&mut loc);
        Ok(EventStructure {
            init: Vec::from_slice(alloc, graph.init())?,
            runs: copy_runs(alloc, graph.runs())?,
            events,
            reads,
            firsts,
            po,
            int,
            loc,
        })
    }

    /// Is it the structure of this execution?
    pub(super) fn is_of(&self, graph: &Graph) -> bool
        ensures { IsTrue result ↔ (self.now ≡ structure_of graph.now) }
    {
        self.init.len() == graph.init().len() && are_like_runs(&self.runs, graph.runs())
    }

    /// The events of an execution with this structure, numbered.
    pub(super) fn numbered<'a>(&'a self, graph: &'a Graph) -> Numbered<'a>
        requires { self.now ≡ structure_of graph.now }
        ensures { result ≡ graph.entry.now }
    {
        Numbered::new(graph, &self.events, &self.reads, &self.firsts)
    }
}
