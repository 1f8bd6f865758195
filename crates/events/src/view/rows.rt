//! The relations that read-from maps and coherence orders tell, row by row.

ghost use Rattle.std.specs.Prelude.{◌≡◌, ◌<◌, ◌⊎◌, length};
ghost use Rattle.relations.specs.Events.{Has, IsCanonicalSet, IsExactlySet};
ghost use Rattle.relations.specs.Relation.{In, IsCanonical, IsExactly};
ghost use Rattle.events.specs.declared.named.RelName.TheVariants.{Rf, Co};
ghost use Rattle.events.specs.Named.{IsNumber, event_count, NamedRel, StandsBefore, read_names};
ghost use Rattle.events.specs.Structures.{with_sources};
ghost use Rattle.events.specs.Rows.{ByNumbers, IsReadAt};

use super::numbered::Numbered;
use crate::event::EventId;
use relations::{Rel, Set};

impl Numbered<'_> {
    /// Writes what `rf` is if these are the sources of the reads, and its pairs turned, over what the two had. The second is filled beside the first: to turn
    /// a relation as a whole costs much more.
    #[tactic(auto, using(crate::proofs::Adding::reads_begun, crate::proofs::Adding::reads_on, crate::proofs::Adding::reads_done, crate::proofs::Turning::turned_begun))]
    pub(super) fn reads_into(&self, sources: &[EventId], rel: &mut Rel, turned: &mut Rel)
        ensures rel { IsExactly (event_count self.now) (NamedRel (with_sources self.now sources.now) Rf) rel.new }
        ensures turned { IsExactly rel.new.count (λ i j. In rel.new j i) turned.new }
    {
        rel.become_empty(self.count());
        turned.become_empty(self.count());
        for read in 0..self.reads.len() {
            self.relate_read(sources, rel, turned, read);
        }
    }

    /// Writes `co` over what `rel` had.
    #[tactic(auto, using(crate::proofs::Adding::orders_begun, crate::proofs::Adding::orders_on, crate::proofs::Adding::orders_done, crate::proofs::Standing::stands_item))]
    pub(super) fn coherence_into(&self, rel: &mut Rel)
        ensures { IsExactly (event_count self.now) (NamedRel self.now Co) rel.new }
    {
        rel.become_empty(self.count());
        for order in self.graph.co() {
            self.relate_order(rel, order.writes());
        }
    }

    // Adds the pair of the read with this number among the reads and the write that it reads from.
    #[tactic(auto, using(crate::proofs::Adding::read_more, crate::proofs::Adding::no_read_more, crate::proofs::Standing::stands_read))]
    fn relate_read(&self, sources: &[EventId], rel: &mut Rel, turned: &mut Rel, read: usize)
        requires count { rel.old.count ≡ event_count self.now }
        requires canonical { IsCanonical rel.old }
        requires turned { IsExactly rel.old.count (λ i j. In rel.old j i) turned.old }
        requires read { read < length (read_names self.now) }
        ensures rel { IsExactly (event_count self.now) (λ i j. In rel.old i j ⊎ ByNumbers self.now (IsReadAt self.now sources.now read) i j) rel.new }
        ensures turned { IsExactly rel.new.count (λ i j. In rel.new j i) turned.new }
    {
        if read < sources.len() {
            self.relate(rel, turned, sources[read], self.read(read));
        }
    }

    // Adds the pair of two events, and the pair turned to the relation that has the pairs turned.
    #[tactic(auto, using(crate::proofs::Adding::pair_more, crate::proofs::Adding::nothing_more))]
    fn relate(&self, rel: &mut Rel, turned: &mut Rel, first: EventId, second: EventId)
        requires count { rel.old.count ≡ event_count self.now }
        requires canonical { IsCanonical rel.old }
        requires turned { IsExactly rel.old.count (λ i j. In rel.old j i) turned.old }
        ensures rel { IsExactly (event_count self.now) (λ i j. In rel.old i j ⊎ (IsNumber self.now i first × IsNumber self.now j second)) rel.new }
        ensures turned { IsExactly rel.new.count (λ i j. In rel.new j i) turned.new }
    {
        if let Some(from) = self.number_of(first) {
            if let Some(to) = self.number_of(second) {
                rel.insert(from, to);
                turned.insert(to, from);
            }
        }
    }

    // Adds the pairs of an order, from its last event on.
    #[tactic(auto, using(crate::proofs::Adding::behind_begun, crate::proofs::Adding::order_begun, crate::proofs::Adding::behind_on, crate::proofs::Adding::order_on, crate::proofs::Adding::order_done, crate::proofs::Standing::stands))]
    pub(super) fn relate_order(&self, rel: &mut Rel, order: &[EventId])
        requires count { rel.old.count ≡ event_count self.now }
        requires canonical { IsCanonical rel.old }
        ensures { IsExactly (event_count self.now) (λ i j. In rel.old i j ⊎ ByNumbers self.now (StandsBefore order.now) i j) rel.new }
    {
        let mut behind = Set::empty(self.count());
        let mut place = order.len();
        while place > 0 {
            place -= 1;
            self.relate_behind(rel, &mut behind, order[place]);
        }
    }

    /// Relates an event to each of those behind it, and puts it with them.
    #[tactic(auto, using(crate::proofs::Adding::row_more, crate::proofs::Adding::event_more, crate::proofs::Adding::nothing_more, crate::proofs::Adding::no_event_more))]
    pub(super) fn relate_behind(&self, rel: &mut Rel, behind: &mut Set, event: EventId)
        requires rel { rel.old.count ≡ event_count self.now }
        requires behind { behind.old.count ≡ event_count self.now }
        requires canonical_rel { IsCanonical rel.old }
        requires canonical_behind { IsCanonicalSet behind.old }
        ensures rel { IsExactly (event_count self.now) (λ i j. In rel.old i j ⊎ (IsNumber self.now i event × Has behind.old j)) rel.new }
        ensures behind { IsExactlySet (event_count self.now) (λ j. Has behind.old j ⊎ IsNumber self.now j event) behind.new }
    {
        if let Some(number) = self.number_of(event) {
            rel.insert_all(number, behind);
            behind.insert(number);
        }
    }
}
