//! Executions without their coherence orders.

ghost use Rattle.std.specs.Prelude.{◌≡◌, ◌≢◌, ◌↔◌, take, IfOk, IsTrue, OnOk, OnErr};
ghost use Rattle.events.specs.Cuts.{part_of};
ghost use Rattle.events.specs.Structures.{structure_of, sourced_of, with_sources};
ghost use Rattle.events.specs.declared.named.Basis.TheVariants.{Runs, Sources, Orders};

use super::numbered::Numbered;
use super::structure::EventStructure;
use crate::cut::Part;
use crate::event::EventId;
use crate::graph::Graph;
use crate::named::Basis;
use relations::Rel;
use std::alloc::{AllocError, Global};
use std::marker::Model;

/// An execution without its coherence orders, whatever its values are: its event structure and its read-from map, with what these
/// tell. It follows the executions, and what is the same isn't worked out again.
pub struct SourcedStructure {
    pub(super) structure: EventStructure,
    sources: Vec<EventId>,
    pub(super) rf: Rel,
    // `rf` from each read to the write that it reads from.
    pub(super) turned: Rel,
}

// A function of its own: whoever holds one drops it by a call.
impl Drop for SourcedStructure {
    fn drop(self) {
        let SourcedStructure {
            structure: _,
            sources: _,
            rf: _,
            turned: _,
        } = self;
    }
}

impl Model for SourcedStructure {
    ghost use Rattle.relations.specs.Relation.{IsExactly};
    ghost use Rattle.events.specs.Named.{event_count, NamedRel};
    ghost use Rattle.events.specs.Structures.{Sourced, plain};
    ghost use Rattle.events.specs.declared.named.RelName.TheVariants as names;

    ghost Value = { Sourced };

    ghost view = { λ s. record { structure = s.structure; rf = s.sources.items } };

    ghost invariant = { λ s. let g = plain (record { structure = s.structure; rf = s.sources.items }) in
        record { rf : IsExactly (event_count g) (NamedRel g names.Rf) s.rf; turned : IsExactly (event_count g) (λ i j. NamedRel g names.Rf j i) s.turned } };
}

/// What so many of the first reads of an execution read from.
fn first_sources(graph: &Graph, reads: usize) -> &[EventId]
    ensures { result.now ≡ take reads graph.now.rf }
{
    let sources = graph.rf();
    &sources[..sources.len().min(reads)]
}

/// What its reads read from, as far as it is known.
fn sources_of<'a>(graph: &'a Graph, part: &Part<'a>) -> &'a [EventId]
    ensures { result.now ≡ (part_of graph.entry.now part.entry.now).rf }
{
    match part {
        Part::Cut(cut) => first_sources(graph, cut.reads),
        Part::Excerpt(excerpt) => excerpt.sources,
    }
}

// Writes sources over those that stand in a list, in its room where they fit.
fn take_over(alloc: Global, kept: &mut Vec<EventId>, sources: &[EventId]) -> Result<(), AllocError>
    ensures done { OnOk result (kept.new.items ≡ sources.now) }
    ensures same { OnErr result (kept.new.items ≡ kept.old.items) }
{
    if kept.capacity() < sources.len() {
        *kept = Vec::from_slice(alloc, sources)?;
        return Ok(());
    }
    kept.clear();
    match kept.extend_from_slice(sources) {
        Ok(()) => Ok(()),
        Err(AllocError) => unreachable!(),
    }
}

impl SourcedStructure {
    /// That of an execution.
    pub fn of(alloc: Global, graph: &Graph) -> Result<Self, AllocError>
        ensures { IfOk result (λ s. s ≡ sourced_of graph.now) }
    {
        SourcedStructure::with(alloc, graph, graph.rf())
    }

    // That of an execution, if these are the sources of its reads.
    fn with(alloc: Global, graph: &Graph, sources: &[EventId]) -> Result<Self, AllocError>
        ensures { IfOk result (λ s. s ≡ sourced_of (with_sources graph.now sources.now)) }
    {
        let structure = EventStructure::of(alloc, graph)?;
        let kept = Vec::from_slice(alloc, sources)?;
        let mut rf = Rel::empty(0);
        let mut turned = Rel::empty(0);
        let numbered = structure.numbered(graph);
        numbered.reads_into(sources, &mut rf, &mut turned);
        Ok(SourcedStructure {
            structure,
            sources: kept,
            rf,
            turned,
        })
    }

    /// Whether an execution has the same runs as its own but for their values.
    pub fn is_of(&self, graph: &Graph) -> bool
        ensures { IsTrue result ↔ (self.now.structure ≡ structure_of graph.now) }
    {
        self.structure.is_of(graph)
    }

    /// Becomes that of an execution, and tells what of it may be another than before: `Runs` if all may be, `Sources` if the
    /// runs are the same but for their values, `Orders` if the read-from map is the same, too. It takes memory where it is another
    /// than before.
    pub fn follow(&mut self, alloc: Global, graph: &Graph) -> Result<Basis, AllocError>
        ensures done { OnOk result (self.new ≡ sourced_of graph.now) }
        ensures runs { IfOk result (λ b. b ≡ Sources → self.new.structure ≡ self.old.structure) }
        ensures all { IfOk result (λ b. b ≡ Orders → self.new ≡ self.old) }
        ensures same { OnErr result (self.new ≡ self.old) }
    {
        self.follow_with(alloc, graph, graph.rf())
    }

    /// The same for an execution of which this is known.
    pub fn follow_part(
        &mut self,
        alloc: Global,
        graph: &Graph,
        part: &Part<'_>,
    ) -> Result<Basis, AllocError>
        ensures done { OnOk result (self.new ≡ sourced_of (part_of graph.now part.now)) }
        ensures runs { IfOk result (λ b. b ≡ Sources → self.new.structure ≡ self.old.structure) }
        ensures all { IfOk result (λ b. b ≡ Orders → self.new ≡ self.old) }
        ensures same { OnErr result (self.new ≡ self.old) }
    {
        self.follow_with(alloc, graph, sources_of(graph, part))
    }

    /// The same as `follow` for an execution that is known to have the same runs but for their values. They aren't compared, and
    /// it tells `Sources` or `Orders`.
    pub fn follow_on(&mut self, alloc: Global, graph: &Graph) -> Result<Basis, AllocError>
        requires { self.old.structure ≡ structure_of graph.now }
        ensures done { OnOk result (self.new ≡ sourced_of graph.now) }
        ensures structure { self.new.structure ≡ self.old.structure }
        ensures told { IfOk result (λ b. b ≢ Runs) }
        ensures all { IfOk result (λ b. b ≡ Orders → self.new ≡ self.old) }
        ensures same { OnErr result (self.new ≡ self.old) }
    {
        self.follow_on_with(alloc, graph, graph.rf())
    }

    /// The same for such an execution of which this is known.
    pub fn follow_part_on(
        &mut self,
        alloc: Global,
        graph: &Graph,
        part: &Part<'_>,
    ) -> Result<Basis, AllocError>
        requires { self.old.structure ≡ structure_of graph.now }
        ensures done { OnOk result (self.new ≡ sourced_of (part_of graph.now part.now)) }
        ensures structure { self.new.structure ≡ self.old.structure }
        ensures told { IfOk result (λ b. b ≢ Runs) }
        ensures all { IfOk result (λ b. b ≡ Orders → self.new ≡ self.old) }
        ensures same { OnErr result (self.new ≡ self.old) }
    {
        self.follow_on_with(alloc, graph, sources_of(graph, part))
    }

    // The same as `follow` for an execution, if these are the sources of its reads.
    #[inline(always)]
    fn follow_with(
        &mut self,
        alloc: Global,
        graph: &Graph,
        sources: &[EventId],
    ) -> Result<Basis, AllocError>
        ensures done { OnOk result (self.new ≡ sourced_of (with_sources graph.now sources.now)) }
        ensures runs { IfOk result (λ b. b ≡ Sources → self.new.structure ≡ self.old.structure) }
        ensures all { IfOk result (λ b. b ≡ Orders → self.new ≡ self.old) }
        ensures same { OnErr result (self.new ≡ self.old) }
    {
        if !self.is_of(graph) {
            self.follow_runs(alloc, graph, sources)?;
            return Ok(Basis::Runs);
        }
        self.follow_on_with(alloc, graph, sources)
    }

    // The same as `follow_on` for an execution, if these are the sources of its reads.
    #[inline(always)]
    fn follow_on_with(
        &mut self,
        alloc: Global,
        graph: &Graph,
        sources: &[EventId],
    ) -> Result<Basis, AllocError>
        requires { self.old.structure ≡ structure_of graph.now }
        ensures done { OnOk result (self.new ≡ sourced_of (with_sources graph.now sources.now)) }
        ensures structure { self.new.structure ≡ self.old.structure }
        ensures told { IfOk result (λ b. b ≢ Runs) }
        ensures all { IfOk result (λ b. b ≡ Orders → self.new ≡ self.old) }
        ensures same { OnErr result (self.new ≡ self.old) }
    {
        if !self.has_sources(sources) {
            self.follow_sources(alloc, graph, sources)?;
            return Ok(Basis::Sources);
        }
        Ok(Basis::Orders)
    }

    /// The events of an execution of which it is, numbered.
    pub(super) fn numbered<'a>(&'a self, graph: &'a Graph) -> Numbered<'a>
        requires { self.now.structure ≡ structure_of graph.now }
        ensures { result ≡ graph.entry.now }
    {
        self.structure.numbered(graph)
    }

    // Are these its sources?
    fn has_sources(&self, sources: &[EventId]) -> bool
        ensures { IsTrue result ↔ (self.now.rf ≡ sources.now) }
    {
        self.sources.as_slice() == sources
    }

    // Becomes that of an execution with other runs. It stands by itself, as does what follows a map, since a function clears
    // its locals when it is called.
    #[inline(never)]
    fn follow_runs(
        &mut self,
        alloc: Global,
        graph: &Graph,
        sources: &[EventId],
    ) -> Result<(), AllocError>
        ensures done { OnOk result (self.new ≡ sourced_of (with_sources graph.now sources.now)) }
        ensures same { OnErr result (self.new ≡ self.old) }
    {
        *self = SourcedStructure::with(alloc, graph, sources)?;
        Ok(())
    }

    // Takes over the sources of the reads of an execution with the same structure.
    #[inline(never)]
    fn follow_sources(
        &mut self,
        alloc: Global,
        graph: &Graph,
        sources: &[EventId],
    ) -> Result<(), AllocError>
        requires { self.old.structure ≡ structure_of graph.now }
        ensures done { OnOk result (self.new ≡ sourced_of (with_sources graph.now sources.now)) }
        ensures same { OnErr result (self.new ≡ self.old) }
    {
        take_over(alloc, &mut self.sources, sources)?;
        let numbered = self.structure.numbered(graph);
        numbered.reads_into(sources, &mut self.rf, &mut self.turned);
        Ok(())
    }
}
