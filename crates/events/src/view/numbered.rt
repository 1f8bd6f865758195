//! The events of an execution by their numbers, and what is tested of each or of each two.

ghost use Rattle.std.specs.Prelude.{◌≡◌, ◌+◌, ◌<◌, ◌≤◌, ◌↔◌, length, IsTrue};
ghost use Rattle.listings.specs.Lists.{StandsAt};
ghost use Rattle.relations.specs.Events.{IsExactlySet};
ghost use Rattle.relations.specs.Relation.{IsExactly};
ghost use Rattle.events.specs.Named.{event_count, event_names, read_names, IsNumber, NamedSet, NamedRel};
ghost use Rattle.events.specs.Rows.{AreFirsts, name_of};

use super::table::Pairwise;
use crate::event::EventId;
use crate::graph::Graph;
use crate::named::SetName;
use relations::{Rel, Set};
use std::marker::Model;

/// An execution with its events numbered. Their names are lent, so that it takes no memory.
#[derive(Drop)]
pub(super) struct Numbered<'a> {
    pub(super) graph: &'a Graph,
    // The events by their numbers.
    pub(super) events: &'a [EventId],
    // The reads among them, in the same order.
    pub(super) reads: &'a [EventId],
    // Of each thread the number of its first event.
    pub(super) firsts: &'a [usize],
}

impl<'a> Model for Numbered<'a> {
    ghost use Rattle.std.specs.Prelude.{◌≡◌, ◌≤◌, length};
    ghost use Rattle.events.specs.Executions.{GraphValue};
    ghost use Rattle.events.specs.Named.{event_names, event_count, read_names};
    ghost use Rattle.events.specs.Rows.{AreFirsts};

    ghost Value = { GraphValue };

    ghost view = { λ v. v.graph.now };

    ghost invariant = { λ v. record { events : v.events.now ≡ event_names v.graph.now; reads : v.reads.now ≡ read_names v.graph.now; firsts : AreFirsts v.graph.now v.firsts.now; count : length v.events.now ≡ event_count v.graph.now; few : event_count v.graph.now ≤ 64 } };
}

impl<'a> Numbered<'a> {
    /// An execution whose events, reads and threads' first events these are.
    pub(super) fn new(
        graph: &'a Graph,
        events: &'a [EventId],
        reads: &'a [EventId],
        firsts: &'a [usize],
    ) -> Self
        requires events { events.now ≡ event_names graph.now }
        requires reads { reads.now ≡ read_names graph.now }
        requires firsts { AreFirsts graph.now firsts.now }
        requires few { event_count graph.now ≤ 64 }
        ensures { result ≡ graph.entry.now }
    {
        Numbered {
            graph,
            events,
            reads,
            firsts,
        }
    }

    /// How many events there are.
    pub(super) fn count(&self) -> usize
        ensures is { result ≡ event_count self.now }
        ensures few { event_count self.now ≤ 64 }
    {
        self.events.len()
    }

    /// The set of this name.
    #[tactic(auto, using(crate::proofs::Filling::set_begun, crate::proofs::Filling::set_filled, crate::proofs::Filling::set_passed, crate::proofs::Filling::set_full))]
    pub(super) fn set(&self, name: SetName) -> Set
        ensures { IsExactlySet (event_count self.now) (NamedSet self.now name) result }
    {
        let mut set = Set::empty(self.count());
        for number in 0..self.count() {
            if self.has(name, number) {
                set.insert(number);
            }
        }
        set
    }

    /// Writes the relation that is tested pair by pair over what `into` had.
    #[tactic(auto, using(crate::proofs::Filling::rel_begun, crate::proofs::Filling::rel_full))]
    pub(super) fn tested_into(&self, name: Pairwise, into: &mut Rel)
        ensures { IsExactly (event_count self.now) (NamedRel self.now (name_of name)) into.new }
    {
        into.become_empty(self.count());
        for from in 0..self.count() {
            self.add_tested(into, name, from);
        }
    }

    // Puts in the pairs from this event.
    #[tactic(auto, using(crate::proofs::Filling::row_begun, crate::proofs::Filling::row_filled, crate::proofs::Filling::row_passed, crate::proofs::Filling::row_full))]
    fn add_tested(&self, rel: &mut Rel, name: Pairwise, from: usize)
        requires before { IsExactly (event_count self.now) (λ i j. (i < from) × NamedRel self.now (name_of name) i j) rel.old }
        requires from { from < event_count self.now }
        ensures { IsExactly (event_count self.now) (λ i j. (i < from + 1) × NamedRel self.now (name_of name) i j) rel.new }
    {
        for to in 0..self.count() {
            if self.relates(name, from, to) {
                rel.insert(from, to);
            }
        }
    }

    // Is the event with this number in the set of this name?
    fn has(&self, name: SetName, number: usize) -> bool
        requires { number < event_count self.now }
        ensures { IsTrue result ↔ NamedSet self.now name number }
    {
        self.is_in(name, self.event(number))
    }

    // Is the pair of the events with these numbers in the relation?
    fn relates(&self, name: Pairwise, from: usize, to: usize) -> bool
        requires from { from < event_count self.now }
        requires to { to < event_count self.now }
        ensures { IsTrue result ↔ NamedRel self.now (name_of name) from to }
    {
        self.is_related(name, self.event(from), self.event(to))
    }

    /// The event with this number.
    pub(super) fn event(&self, number: usize) -> EventId
        requires { number < event_count self.now }
        ensures { IsNumber self.now number result }
    {
        prove!(number < self.events.len());
        self.events[number]
    }

    /// The read at this place among the reads.
    pub(super) fn read(&self, place: usize) -> EventId
        requires { place < length (read_names self.now) }
        ensures { StandsAt (read_names self.now) place result }
    {
        prove!(place < self.reads.len());
        self.reads[place]
    }
}
