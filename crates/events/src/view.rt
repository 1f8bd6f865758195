//! The named sets and relations of one execution.

ghost use Rattle.std.specs.Prelude.{◌≡◌, ◌≤◌, IfOk};
ghost use Rattle.relations.specs.Events.{IsExactlySet};
ghost use Rattle.relations.specs.Relation.{IsExactly};
ghost use Rattle.events.specs.Named.{event_count, NamedSet, NamedRel};
ghost use Rattle.events.specs.Cuts.{part_of, IsOfEvents};
ghost use Rattle.events.specs.Opened.{opened};
ghost use Rattle.events.specs.Structures.{structure_of, sourced_of};
ghost use Rattle.events.specs.declared.named.RelName.TheVariants as names;

use crate::cut::{Cut, Part};
use crate::graph::Graph;
use crate::named::{RelName, SetName};
use relations::{Rel, Set};
use std::alloc::{AllocError, Global};
use std::marker::Model;

mod facts;
mod groups;
mod held;
mod known;
mod names;
mod numbered;
mod numbers;
mod opened;
mod rows;
mod sourced;
mod structure;
mod table;

use held::{Held, Placed, Shown};
pub use names::event_names;
use numbered::Numbered;
pub use sourced::SourcedStructure;
use structure::EventStructure;
use table::Pairwise;

/// An execution with its events numbered: the initial writes in the order of locations, then thread by thread
/// in program order.
#[derive(Drop)]
pub struct GraphView<'a> {
    graph: &'a Graph,
    // How it is shown.
    shown: Shown<'a>,
    // What it has in common with the executions that differ in their coherence orders alone.
    held: Held<'a>,
    co: Placed<'a>,
}

impl<'a> Model for GraphView<'a> {
    ghost use Rattle.std.specs.Prelude.{◌≡◌};
    ghost use Rattle.relations.specs.Relation.{IsExactly};
    ghost use Rattle.events.specs.Executions.{GraphValue};
    ghost use Rattle.events.specs.Held.{IsShowable, seen, held_value, placed_value};
    ghost use Rattle.events.specs.Named.{event_count, NamedRel};
    ghost use Rattle.events.specs.Structures.{sourced_of};
    ghost use Rattle.events.specs.declared.named.RelName.TheVariants as names;

    ghost Value = { GraphValue };

    ghost view = { λ v. seen v.shown v.graph.now };

    ghost invariant = { λ v. let g = seen v.shown v.graph.now in
        record { shown : IsShowable v.shown v.graph.now; held : held_value v.held ≡ sourced_of g; co : IsExactly (event_count g) (NamedRel g names.Co) (placed_value v.co) } };
}

impl<'a> GraphView<'a> {
    /// The view of an execution.
    pub fn of(alloc: Global, graph: &'a Graph) -> Result<Self, AllocError>
        ensures { IfOk result (λ v. v ≡ graph.entry.now) }
    {
        let sourced = SourcedStructure::of(alloc, graph)?;
        let mut co = Box::new(alloc, Rel::empty(0))?;
        sourced.numbered(graph).coherence_into(&mut co);
        Ok(GraphView {
            graph,
            shown: Shown::Whole,
            held: Held::Own(Box::new(alloc, sourced)?),
            co: Placed::Own(co),
        })
    }

    /// The view of an execution over what it has in common with others, which is lent, as is room for its coherence orders. It takes
    /// no memory.
    pub fn over(sourced: &'a SourcedStructure, graph: &'a Graph, room: &'a mut Rel) -> Self
        requires { sourced.now ≡ sourced_of graph.now }
        ensures { result ≡ graph.entry.now }
    {
        sourced.numbered(graph).coherence_into(room);
        GraphView {
            graph,
            shown: Shown::Whole,
            held: Held::Lent(sourced),
            co: Placed::Lent(room),
        }
    }

    /// The same of an execution of which this is known.
    pub fn over_part(
        sourced: &'a SourcedStructure,
        graph: &'a Graph,
        part: Part<'a>,
        room: &'a mut Rel,
    ) -> Self
        requires part { IsOfEvents graph.now part }
        requires sourced { sourced.now ≡ sourced_of (part_of graph.now part) }
        ensures { result ≡ part_of graph.entry.now part.entry }
    {
        sourced.numbered(graph).part_into(&part, room);
        GraphView {
            graph,
            shown: Shown::Partly(part),
            held: Held::Lent(sourced),
            co: Placed::Lent(room),
        }
    }

    /// The same of an execution with the writes open that a cut leaves without a place: its `co` has each pair that there is in some order
    /// of them. What the cut tells of reads counts for nothing.
    pub fn over_open(
        sourced: &'a SourcedStructure,
        graph: &'a Graph,
        cut: Cut<'a>,
        room: &'a mut Rel,
    ) -> Self
        requires { sourced.now ≡ sourced_of graph.now }
        ensures { result ≡ opened graph.entry.now cut.entry }
    {
        sourced.numbered(graph).opened_coherence_into(&cut, room);
        GraphView {
            graph,
            shown: Shown::Opened(cut),
            held: Held::Lent(sourced),
            co: Placed::Lent(room),
        }
    }

    /// How many events there are.
    pub fn count(&self) -> usize
        ensures is { result ≡ event_count self.now }
        ensures few { event_count self.now ≤ 64 }
    {
        self.numbered().count()
    }

    /// The set of this name.
    pub fn set(&self, name: SetName) -> Set
        ensures { IsExactlySet (event_count self.now) (NamedSet self.now name) result }
    {
        self.numbered().set(name)
    }

    /// The relation of this name.
    pub fn rel(&self, name: RelName) -> Rel
        ensures { IsExactly (event_count self.now) (NamedRel self.now name) result }
    {
        let mut rel = Rel::empty(self.count());
        self.rel_into(name, &mut rel);
        rel
    }

    /// Writes the relation of this name over what `into` had.
    pub fn rel_into(&self, name: RelName, into: &mut Rel)
        ensures { IsExactly (event_count self.now) (NamedRel self.now name) into.new }
    {
        match name {
            RelName::Po => into.become_copy(self.po()),
            RelName::Int => into.become_copy(self.int()),
            RelName::Ext => into.become_complement(self.int()),
            RelName::Loc => into.become_copy(self.loc()),
            RelName::PoLoc => into.become_inter(self.po(), self.loc()),
            RelName::Rf => into.become_copy(self.rf()),
            RelName::Co => into.become_copy(self.co()),
            RelName::Fr => self.fr_into(into),
            RelName::Rfi => into.become_inter(self.rf(), self.int()),
            RelName::Coi => into.become_inter(self.co(), self.int()),
            RelName::Fri => {
                self.fr_into(into);
                into.inter_with(self.int());
            }
            RelName::Rfe => into.become_minus(self.rf(), self.int()),
            RelName::Coe => into.become_minus(self.co(), self.int()),
            RelName::Fre => {
                self.fr_into(into);
                into.minus_with(self.int());
            }
            RelName::Rmw => self.numbered().tested_into(Pairwise::Rmw, into),
            RelName::Data => self.numbered().tested_into(Pairwise::Data, into),
            RelName::Ctrl => self.numbered().tested_into(Pairwise::Ctrl, into),
            RelName::Addr => into.become_empty(self.count()),
            RelName::Id => into.become_id(self.count()),
        }
    }

    // Writes `fr`: from each read the events behind the write that it reads from.
    fn fr_into(&self, into: &mut Rel)
        ensures { IsExactly (event_count self.now) (NamedRel self.now names.Fr) into.new }
    {
        // They tell that what an execution reads from is an event.
        let _ = self.graph.runs();
        into.become_seq(self.turned(), self.co());
    }

    // What it has in common with the executions that differ in their coherence orders alone.
    fn sourced(&self) -> &SourcedStructure
        ensures { result.now ≡ sourced_of self.now }
    {
        self.held.get()
    }

    // What it has in common with the executions that have the same runs.
    fn structure(&self) -> &EventStructure
        ensures { result.now ≡ structure_of self.now }
    {
        let kept = self.sourced();
        &kept.structure
    }

    // The events, numbered: those of an execution of the same structure.
    fn numbered(&self) -> Numbered<'_>
        ensures { structure_of result ≡ structure_of self.now }
    {
        self.structure().numbered(self.graph)
    }

    // `po`.
    fn po(&self) -> &Rel
        ensures { IsExactly (event_count self.now) (NamedRel self.now names.Po) result.now }
    {
        let kept = self.structure();
        &kept.po
    }

    // `int`.
    fn int(&self) -> &Rel
        ensures { IsExactly (event_count self.now) (NamedRel self.now names.Int) result.now }
    {
        let kept = self.structure();
        &kept.int
    }

    // `loc`.
    fn loc(&self) -> &Rel
        ensures { IsExactly (event_count self.now) (NamedRel self.now names.Loc) result.now }
    {
        let kept = self.structure();
        &kept.loc
    }

    // `rf`.
    fn rf(&self) -> &Rel
        ensures { IsExactly (event_count self.now) (NamedRel self.now names.Rf) result.now }
    {
        let kept = self.sourced();
        &kept.rf
    }

    // `co`.
    fn co(&self) -> &Rel
        ensures { IsExactly (event_count self.now) (NamedRel self.now names.Co) result.now }
    {
        self.co.get()
    }

    // `rf`, turned.
    fn turned(&self) -> &Rel
        ensures { IsExactly (event_count self.now) (λ i j. NamedRel self.now names.Rf j i) result.now }
    {
        let kept = self.sourced();
        &kept.turned
    }
}
