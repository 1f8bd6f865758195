//! Relations and sets: an event with each of a set, and the ends of all pairs.

ghost use Rattle.std.specs.Prelude.{◌≡◌, ◌<◌, ◌⊎◌};
ghost use Rattle.relations.specs.Events.{Has, IsExactlySet};
ghost use Rattle.relations.specs.Relation.{In, IsExactly};
ghost use Rattle.relations.specs.Algebra.{Domain, Range};
ghost use Rattle.relations.specs.Words.{IsRow};

use crate::rel::Rel;
use crate::set::Set;
use crate::word::below;

impl Rel {
    /// Relates event `i` to each event of the set, too.
    pub fn insert_all(&mut self, i: usize, to: &Set)
        requires from { i < self.old.count }
        requires to { to.now.count ≡ self.old.count }
        ensures { IsExactly self.old.count (λ a b. In self.old a b ⊎ ((a ≡ i) × Has to.now b)) self.new }
    {
        prove!(self.count <= 64);
        self.rows[i] |= to.word();
    }

    /// The events that are related to some event.
    pub fn domain(&self) -> Set
        ensures { IsExactlySet self.now.count (Domain (In self.now)) result }
    {
        Set::of(self.count(), self.sources())
    }

    /// The events to which some event is related.
    pub fn range(&self) -> Set
        ensures { IsExactlySet self.now.count (Range (In self.now)) result }
    {
        Set::of(self.count(), self.targets())
    }

    // The events from which a pair leads.
    fn sources(&self) -> u64
        ensures { IsRow self.now.count (Domain (In self.now)) result }
    {
        let mask = below(self.count());
        let mut found = 0;
        for i in 0..self.count() {
            if self.row(i) & mask != 0 {
                found |= 1u64 << i;
            }
        }
        found
    }

    // The events to which a pair leads.
    pub(crate) fn targets(&self) -> u64
        ensures { IsRow self.now.count (Range (In self.now)) result }
    {
        let mut found = 0;
        for i in 0..self.count() {
            found |= self.row(i);
        }
        found
    }
}
