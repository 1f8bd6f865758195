//! What is known of coherence orders where not all is known of an execution, row by row.

ghost use Rattle.std.specs.Prelude.{◌≡◌, ◌⊎◌, drop};
ghost use Rattle.relations.specs.Events.{Has, IsCanonicalSet, IsExactlySet};
ghost use Rattle.relations.specs.Relation.{In, IsCanonical, IsExactly};
ghost use Rattle.events.specs.declared.named.RelName.TheVariants.{Co};
ghost use Rattle.events.specs.Cuts.{cut_down, excerpt_of, part_of, known_of, first_before, placed, IsBeforeInOne};
ghost use Rattle.events.specs.Named.{IsNumber, event_count, NamedRel, StandsBefore};
ghost use Rattle.events.specs.Rows.{ByNumbers, IsNumberOfOne, IsNumberUnless};

use super::numbered::Numbered;
use crate::cut::{Cut, Excerpt, Part};
use crate::event::EventId;
use relations::{Rel, Set};

/// The writes of an order behind the first.
pub(super) fn later_writes(order: &[EventId]) -> &[EventId]
    ensures { result.now ≡ drop 1 order.now }
{
    order.get(1..).unwrap_or(&[])
}

impl Numbered<'_> {
    /// Writes what is known of `co`, if this is known of the execution, over what `rel` had.
    pub(super) fn part_into(&self, part: &Part<'_>, rel: &mut Rel)
        ensures { IsExactly (event_count self.now) (NamedRel (part_of self.now part.now) Co) rel.new }
    {
        match part {
            Part::Cut(cut) => self.known_coherence_into(cut, rel),
            Part::Excerpt(excerpt) => self.order_into(excerpt, rel),
        }
    }

    /// The same, where the execution is cut down to what is known of it.
    pub(super) fn known_coherence_into(&self, cut: &Cut<'_>, rel: &mut Rel)
        ensures { IsExactly (event_count self.now) (NamedRel (cut_down self.now cut.now) Co) rel.new }
    {
        rel.become_empty(self.count());
        for (location, order) in self.graph.co().iter().enumerate() {
            self.relate_known(rel, cut, location, order.writes());
        }
    }

    // The same, where an excerpt of the execution is known.
    fn order_into(&self, excerpt: &Excerpt<'_>, rel: &mut Rel)
        ensures { IsExactly (event_count self.now) (NamedRel (excerpt_of self.now excerpt.now) Co) rel.new }
    {
        rel.become_empty(self.count());
        self.relate_order(rel, excerpt.order);
    }

    // Adds the pairs that are known of the order of a location.
    fn relate_known(&self, rel: &mut Rel, cut: &Cut<'_>, location: usize, order: &[EventId])
        requires count { rel.old.count ≡ event_count self.now }
        requires canonical { IsCanonical rel.old }
        ensures { IsExactly (event_count self.now) (λ i j. In rel.old i j ⊎ ByNumbers self.now (IsBeforeInOne (known_of cut.now.locations cut.now.unplaced.now location order.now)) i j) rel.new }
    {
        if location > cut.locations {
            self.relate_order(rel, order);
            return;
        }
        if location < cut.locations {
            self.relate_first(rel, order, later_writes(order));
            return;
        }
        self.relate_placed(rel, order, cut.unplaced);
        self.relate_first(rel, order, cut.unplaced);
    }

    // Relates the first event of an order to others.
    fn relate_first(&self, rel: &mut Rel, order: &[EventId], others: &[EventId])
        requires count { rel.old.count ≡ event_count self.now }
        requires canonical { IsCanonical rel.old }
        ensures { IsExactly (event_count self.now) (λ i j. In rel.old i j ⊎ ByNumbers self.now (IsBeforeInOne (first_before order.now others.now)) i j) rel.new }
    {
        if let Some(first) = order.first() {
            if let Some(number) = self.number_of(*first) {
                rel.insert_all(number, &self.numbers_of(others));
            }
        }
    }

    /// The numbers of events.
    #[tactic(auto, using(crate::proofs::Cutting::numbers_begun))]
    pub(super) fn numbers_of(&self, events: &[EventId]) -> Set
        ensures { IsExactlySet (event_count self.now) (IsNumberOfOne self.now events.now) result }
    {
        let mut numbers = Set::empty(self.count());
        for event in events {
            self.note(&mut numbers, *event);
        }
        numbers
    }

    // Puts the number of an event with others.
    #[tactic(auto, using(crate::proofs::Adding::event_more, crate::proofs::Adding::no_event_more))]
    fn note(&self, numbers: &mut Set, event: EventId)
        requires count { numbers.old.count ≡ event_count self.now }
        requires canonical { IsCanonicalSet numbers.old }
        ensures { IsExactlySet (event_count self.now) (λ j. Has numbers.old j ⊎ IsNumber self.now j event) numbers.new }
    {
        if let Some(number) = self.number_of(event) {
            numbers.insert(number);
        }
    }

    // Adds the pairs of an order without these events, from its last event on.
    fn relate_placed(&self, rel: &mut Rel, order: &[EventId], unplaced: &[EventId])
        requires count { rel.old.count ≡ event_count self.now }
        requires canonical { IsCanonical rel.old }
        ensures { IsExactly (event_count self.now) (λ i j. In rel.old i j ⊎ ByNumbers self.now (StandsBefore (placed unplaced.now order.now)) i j) rel.new }
    {
        let without = self.numbers_of(unplaced);
        let mut behind = Set::empty(self.count());
        let mut place = order.len();
        while place > 0 {
            place -= 1;
            self.relate_unless(rel, &mut behind, &without, order[place]);
        }
    }

    // Relates an event to each of those behind it, and puts it with them, unless its number is among these.
    fn relate_unless(&self, rel: &mut Rel, behind: &mut Set, without: &Set, event: EventId)
        requires rel { rel.old.count ≡ event_count self.now }
        requires behind { behind.old.count ≡ event_count self.now }
        requires without { without.now.count ≡ event_count self.now }
        requires canonical_rel { IsCanonical rel.old }
        requires canonical_behind { IsCanonicalSet behind.old }
        ensures rel { IsExactly (event_count self.now) (λ i j. In rel.old i j ⊎ (IsNumberUnless self.now (Has without.now) event i × Has behind.old j)) rel.new }
        ensures behind { IsExactlySet (event_count self.now) (λ j. Has behind.old j ⊎ IsNumberUnless self.now (Has without.now) event j) behind.new }
    {
        if let Some(number) = self.number_of(event) {
            if !without.contains(number) {
                rel.insert_all(number, behind);
                behind.insert(number);
            }
        }
    }
}
