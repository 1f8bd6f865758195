//! The coherence orders of an execution of which some writes are open, row by row.

ghost use Rattle.std.specs.Prelude.{◌≡◌, ◌⊎◌};
ghost use Rattle.relations.specs.Events.{Has};
ghost use Rattle.relations.specs.Relation.{In, IsCanonical, IsExactly};
ghost use Rattle.events.specs.declared.named.RelName.TheVariants.{Co};
ghost use Rattle.events.specs.Cuts.{IsBeforeInOne};
ghost use Rattle.events.specs.Named.{IsNumber, event_count, NamedRel};
ghost use Rattle.events.specs.Opened.{opened, opened_of};
ghost use Rattle.events.specs.Rows.{ByNumbers, AreTwoOf, AreTwoEitherWay};

use super::known::later_writes;
use super::numbered::Numbered;
use crate::cut::Cut;
use crate::event::EventId;
use relations::{Rel, Set};

impl Numbered<'_> {
    /// Writes what `co` is where the writes are open that the cut leaves without a place, over what `rel` had.
    pub(super) fn opened_coherence_into(&self, cut: &Cut<'_>, rel: &mut Rel)
        ensures { IsExactly (event_count self.now) (NamedRel (opened self.now cut.now) Co) rel.new }
    {
        rel.become_empty(self.count());
        for (location, order) in self.graph.co().iter().enumerate() {
            self.relate_opened(rel, cut, location, order.writes());
        }
    }

    // Adds the pairs of the order of a location, and those of its open writes with all later ones.
    fn relate_opened(&self, rel: &mut Rel, cut: &Cut<'_>, location: usize, order: &[EventId])
        requires count { rel.old.count ≡ event_count self.now }
        requires canonical { IsCanonical rel.old }
        ensures { IsExactly (event_count self.now) (λ i j. In rel.old i j ⊎ ByNumbers self.now (IsBeforeInOne (opened_of cut.now.locations cut.now.unplaced.now location order.now)) i j) rel.new }
    {
        let later = later_writes(order);
        self.relate_order(rel, order);
        if location < cut.locations {
            self.relate_either_way(rel, later, later);
            return;
        }
        if location == cut.locations {
            self.relate_either_way(rel, later, cut.unplaced);
        }
    }

    // Relates each of these writes to each other of the later ones, and each of the later ones to it.
    fn relate_either_way(&self, rel: &mut Rel, later: &[EventId], writes: &[EventId])
        requires count { rel.old.count ≡ event_count self.now }
        requires canonical { IsCanonical rel.old }
        ensures { IsExactly (event_count self.now) (λ i j. In rel.old i j ⊎ ByNumbers self.now (AreTwoEitherWay writes.now later.now) i j) rel.new }
    {
        self.relate_others(rel, writes, later);
        self.relate_others(rel, later, writes);
    }

    // Relates each of these events to each other one of those.
    fn relate_others(&self, rel: &mut Rel, events: &[EventId], others: &[EventId])
        requires count { rel.old.count ≡ event_count self.now }
        requires canonical { IsCanonical rel.old }
        ensures { IsExactly (event_count self.now) (λ i j. In rel.old i j ⊎ ByNumbers self.now (AreTwoOf events.now others.now) i j) rel.new }
    {
        let numbers = self.numbers_of(others);
        for event in events {
            self.relate_other(rel, *event, &numbers);
        }
    }

    // Relates an event to those of these numbers that aren't its own.
    fn relate_other(&self, rel: &mut Rel, event: EventId, numbers: &Set)
        requires rel { rel.old.count ≡ event_count self.now }
        requires numbers { numbers.now.count ≡ event_count self.now }
        requires canonical { IsCanonical rel.old }
        ensures { IsExactly (event_count self.now) (λ i j. In rel.old i j ⊎ (IsNumber self.now i event × Has numbers.now j × (¬ IsNumber self.now j event))) rel.new }
    {
        if let Some(number) = self.number_of(event) {
            let mut own = Set::empty(self.count());
            own.insert(number);
            rel.insert_all(number, &numbers.minus(&own));
        }
    }
}
