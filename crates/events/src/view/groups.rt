//! The relations that the threads and the locations of events tell: each event is related to those of a group.

ghost use Rattle.std.specs.Prelude.{◌≡◌, ◌+◌, ◌<◌, ◌↔◌, ◌⊎◌, length, slice_index_or, IsTrue};
ghost use Rattle.relations.specs.Events.{Has, IsExactlySet};
ghost use Rattle.relations.specs.Relation.{In, IsCanonical, IsExactly};
ghost use Rattle.events.specs.declared.named.RelName.TheVariants.{Po, Int, Loc};
ghost use Rattle.events.specs.Executions.{empty_run};
ghost use Rattle.events.specs.Named.{event_count, IsBefore, NamedRel};
ghost use Rattle.events.specs.Rows.{ByNumber, ByNumbers, IsAccessOf, IsBegun, IsFrom, Starting};

use super::numbered::Numbered;
use crate::event::EventId;
use crate::named::SetName;
use relations::{Rel, Set};

/// Relates each event of a group to each of the group.
#[tactic(auto, using(crate::proofs::Grouping::group_begun, crate::proofs::Grouping::group_more, crate::proofs::Grouping::group_passed, crate::proofs::Grouping::group_full))]
fn relate_group(rel: &mut Rel, group: &Set)
    requires { group.now.count ≡ rel.old.count }
    ensures { IsExactly rel.old.count (λ i j. In rel.old i j ⊎ (Has group.now i × Has group.now j)) rel.new }
{
    for number in 0..rel.count() {
        if group.contains(number) {
            rel.insert_all(number, group);
        }
    }
}

impl Numbered<'_> {
    /// Writes `po` and `int` over what these had, thread by thread.
    pub(super) fn threads_into(&self, po: &mut Rel, int: &mut Rel)
        ensures po { IsExactly (event_count self.now) (NamedRel self.now Po) po.new }
        ensures int { IsExactly (event_count self.now) (NamedRel self.now Int) int.new }
    {
        let size = self.count();
        po.become_empty(size);
        int.become_empty(size);
        relate_group(int, &self.set(SetName::InitialWrites));
        for (thread, run) in self.graph.runs().iter().enumerate() {
            let events = self.relate_thread(po, thread, run.events().len());
            relate_group(int, &events);
        }
    }

    // Adds the pairs of a thread with so many events to `po`, from its last event on, and gives the numbers of its events.
    fn relate_thread(&self, po: &mut Rel, thread: usize, events: usize) -> Set
        requires count { po.old.count ≡ event_count self.now }
        requires canonical { IsCanonical po.old }
        requires events { events ≡ length (slice_index_or self.now.runs thread empty_run).events }
        ensures po { IsExactly (event_count self.now) (λ i j. In po.old i j ⊎ ByNumbers self.now (Starting (IsFrom thread 0) IsBefore) i j) po.new }
        ensures numbers { IsExactlySet (event_count self.now) (ByNumber self.now (IsFrom thread 0)) result }
    {
        let mut behind = Set::empty(self.count());
        let mut place = events;
        while place > 0 {
            place -= 1;
            self.relate_behind(po, &mut behind, EventId::Own(thread, place));
        }
        behind
    }

    /// Writes `loc` over what `rel` had, location by location.
    #[tactic(auto, using(crate::proofs::Grouping::locations_begun))]
    pub(super) fn locations_into(&self, rel: &mut Rel)
        ensures { IsExactly (event_count self.now) (NamedRel self.now Loc) rel.new }
    {
        let size = self.count();
        rel.become_empty(size);
        for number in 0..size {
            self.relate_location(rel, number);
        }
    }

    // Adds the pairs of the location of the event with this number, unless they are in.
    fn relate_location(&self, rel: &mut Rel, number: usize)
        requires number { number < event_count self.now }
        requires before { IsExactly (event_count self.now) (IsBegun number (NamedRel self.now Loc)) rel.old }
        ensures { IsExactly (event_count self.now) (IsBegun (number + 1) (NamedRel self.now Loc)) rel.new }
    {
        if !rel.contains(number, number) {
            relate_group(rel, &self.beside(number));
        }
    }

    // The numbers of the events at the location of the event with this number.
    fn beside(&self, number: usize) -> Set
        requires { number < event_count self.now }
        ensures { IsExactlySet (event_count self.now) (NamedRel self.now Loc number) result }
    {
        let one = self.event(number);
        if !self.graph.is_memory(one) {
            return Set::empty(self.count());
        }
        self.accesses(self.graph.location(one))
    }

    // The numbers of the events that read or write a location.
    #[tactic(auto, using(crate::proofs::Filling::set_begun, crate::proofs::Filling::set_filled, crate::proofs::Filling::set_passed, crate::proofs::Filling::set_full))]
    fn accesses(&self, location: usize) -> Set
        ensures { IsExactlySet (event_count self.now) (ByNumber self.now (IsAccessOf self.now location)) result }
    {
        let mut numbers = Set::empty(self.count());
        for number in 0..self.count() {
            if self.is_access(location, number) {
                numbers.insert(number);
            }
        }
        numbers
    }

    // Does the event with this number read or write the location?
    fn is_access(&self, location: usize, number: usize) -> bool
        requires { number < event_count self.now }
        ensures { IsTrue result ↔ ByNumber self.now (IsAccessOf self.now location) number }
    {
        self.graph.is_access_of(location, self.event(number))
    }
}
