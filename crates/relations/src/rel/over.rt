//! The operations that write over what a relation has: they touch the rows below the count alone, and copy nothing that they
//! only read.

ghost use Rattle.std.specs.Prelude.{◌≡◌, ℕ, ◌<◌, ◌≤◌, ◌⊎◌, ◌+◌, ◌-◌, ◌^◌, true};
ghost use Rattle.relations.specs.Events.{Has};
ghost use Rattle.relations.specs.Relation.{In, IsExactly};
ghost use Rattle.relations.specs.Algebra.{Through, Chain};
ghost use Rattle.relations.specs.Words.{has_bit, ClosedFrom, IsRow};

use crate::rel::Rel;
use crate::set::Set;
use crate::word::below;

impl Rel {
    /// Becomes the relation without a pair.
    pub fn become_empty(&mut self, count: usize)
        requires { count ≤ 64 }
        ensures { IsExactly count (λ i j. ⊥) self.new }
    {
        self.fill(
            count,
            |_i|
                requires { count ≤ 64 }
                ensures { IsRow count (λ j. ⊥) result }
            {
                prove!(count <= 64);
                0
            },
        );
    }

    /// Becomes each event with itself.
    pub fn become_id(&mut self, count: usize)
        requires { count ≤ 64 }
        ensures { IsExactly count (λ i j. i ≡ j) self.new }
    {
        self.fill(
            count,
            |i|
                requires from { i < count }
                requires count { count ≤ 64 }
                ensures { IsRow count (λ j. i ≡ j) result }
            {
                prove!(count <= 64);
                1u64 << i
            },
        );
    }

    /// Becomes the same as the other.
    pub fn become_copy(&mut self, of: &Self)
        ensures { self.new ≡ of.now }
    {
        self.fill(
            of.count(),
            |i|
                requires { i < of.now.count }
                ensures { IsRow of.entry.now.count (In of.entry.now i) result }
            { of.row(i) },
        );
    }

    /// Becomes the pairs of either.
    pub fn become_union(&mut self, left: &Self, right: &Self)
        requires { left.now.count ≡ right.now.count }
        ensures { IsExactly left.now.count (λ i j. In left.now i j ⊎ In right.now i j) self.new }
    {
        self.fill(
            left.count(),
            |i|
                requires from { i < left.now.count }
                requires small { left.now.count ≤ 64 }
                requires counts { left.now.count ≡ right.now.count }
                ensures { IsRow left.entry.now.count (λ j. In left.entry.now i j ⊎ In right.entry.now i j) result }
            { left.row(i) | right.row(i) },
        );
    }

    /// Becomes the pairs of both.
    pub fn become_inter(&mut self, left: &Self, right: &Self)
        requires { left.now.count ≡ right.now.count }
        ensures { IsExactly left.now.count (λ i j. In left.now i j × In right.now i j) self.new }
    {
        self.fill(
            left.count(),
            |i|
                requires from { i < left.now.count }
                requires small { left.now.count ≤ 64 }
                requires counts { left.now.count ≡ right.now.count }
                ensures { IsRow left.entry.now.count (λ j. In left.entry.now i j × In right.entry.now i j) result }
            { left.row(i) & right.row(i) },
        );
    }

    /// Becomes the pairs of the left one that the right one has not.
    pub fn become_minus(&mut self, left: &Self, right: &Self)
        requires { left.now.count ≡ right.now.count }
        ensures { IsExactly left.now.count (λ i j. In left.now i j × (¬ In right.now i j)) self.new }
    {
        self.fill(
            left.count(),
            |i|
                requires from { i < left.now.count }
                requires small { left.now.count ≤ 64 }
                requires counts { left.now.count ≡ right.now.count }
                ensures { IsRow left.entry.now.count (λ j. In left.entry.now i j × (¬ In right.entry.now i j)) result }
            { left.row(i) & !right.row(i) },
        );
    }

    /// Becomes the ends of each pair of the left one with a pair of the right one behind it.
    #[inline(never)]
    pub fn become_seq(&mut self, left: &Self, right: &Self)
        requires { left.now.count ≡ right.now.count }
        ensures { IsExactly left.now.count (Through left.now.count (In left.now) (In right.now)) self.new }
    {
        let mask = right.leading();
        if mask == 0 {
            return self.become_empty(left.count());
        }
        self.fill(
            left.count(),
            |i|
                requires from { i < left.now.count }
                requires small { left.now.count ≤ 64 }
                requires counts { left.now.count ≡ right.now.count }
                requires inside { (m : ℕ) → has_bit mask m ≡ true → m < right.now.count }
                requires mask { (m j : ℕ) → In right.now m j → has_bit mask m ≡ true }
                ensures { IsRow left.entry.now.count (λ j. Through left.entry.now.count (In left.entry.now) (In right.entry.now) i j) result }
            { right.image(left.row(i) & mask) },
        );
    }

    /// Becomes the pairs of events below the count that the other has not.
    pub fn become_complement(&mut self, of: &Self)
        ensures { IsExactly of.now.count (λ i j. ¬ In of.now i j) self.new }
    {
        self.fill(
            of.count(),
            |i|
                requires from { i < of.now.count }
                requires small { of.now.count ≤ 64 }
                ensures { IsRow of.entry.now.count (λ j. ¬ In of.entry.now i j) result }
            { !of.row(i) },
        );
    }

    /// Becomes each pair turned.
    pub fn become_inverse(&mut self, of: &Self)
        ensures { IsExactly of.now.count (λ i j. In of.now j i) self.new }
    {
        let count = of.count();
        let all = below(count);
        self.become_empty(count);
        for to in 0..count {
            self.insert_from(of.row(to) & all, to);
        }
    }

    // Relates each of these events to event `to`, too.
    #[inline(always)]
    fn insert_from(&mut self, from: u64, to: usize)
        requires to { to < self.old.count }
        requires inside { (m : ℕ) → has_bit from m ≡ true → m < self.old.count }
        ensures { IsExactly self.old.count (λ i j. In self.old i j ⊎ ((has_bit from i ≡ true) × (j ≡ to))) self.new }
    {
        prove!(self.count <= 64);
        let mut left = from;
        while left != 0 {
            let m = left.trailing_zeros() as usize;
            left &= left - 1;
            self.insert(m, to);
        }
    }

    /// Becomes the pairs of the other, and each event with itself.
    pub fn become_opt(&mut self, of: &Self)
        ensures { IsExactly of.now.count (λ i j. In of.now i j ⊎ (i ≡ j)) self.new }
    {
        self.fill(
            of.count(),
            |i|
                requires from { i < of.now.count }
                requires small { of.now.count ≤ 64 }
                ensures { IsRow of.entry.now.count (λ j. In of.entry.now i j ⊎ (i ≡ j)) result }
            { of.row(i) | (1u64 << i) },
        );
    }

    /// Becomes the ends of each nonempty chain.
    #[inline(never)]
    pub fn become_plus(&mut self, of: &Self)
        ensures { IsExactly of.now.count (Chain (In of.now)) self.new }
    {
        let count = of.count();
        let all = below(count);
        self.become_copy(of);
        for passed in 0..count {
            self.close_row(of, all, count - 1 - passed);
        }
    }

    // Relates an event to those to which chains of the other lead from it, where the events behind it are so related. The word has all events.
    #[inline(always)]
    fn close_row(&mut self, of: &Self, all: u64, i: usize)
        requires all { all ≡ 2 ^ of.now.count - 1 }
        requires i { i < of.now.count }
        requires behind { IsExactly of.now.count (ClosedFrom (i + 1) (In of.now)) self.old }
        ensures { IsExactly of.now.count (ClosedFrom i (In of.now)) self.new }
    {
        let reached = self.reached(of, all, i);
        self.rows[i] = reached;
    }

    /// Becomes the ends of each chain, also of none.
    pub fn become_star(&mut self, of: &Self)
        ensures { IsExactly of.now.count (λ i j. Chain (In of.now) i j ⊎ (i ≡ j)) self.new }
    {
        self.become_plus(of);
        self.reflect();
    }

    /// Adds each event with itself.
    pub fn reflect(&mut self)
        ensures { IsExactly self.old.count (λ i j. In self.old i j ⊎ (i ≡ j)) self.new }
    {
        for i in 0..self.count() {
            self.insert(i, i);
        }
    }

    /// Becomes each event of one set with each of another.
    pub fn become_product(&mut self, left: &Set, right: &Set)
        requires { left.now.count ≡ right.now.count }
        ensures { IsExactly left.now.count (λ i j. Has left.now i × Has right.now j) self.new }
    {
        self.fill(
            left.count(),
            |i|
                requires from { i < left.now.count }
                requires counts { left.now.count ≡ right.now.count }
                ensures { IsRow left.entry.now.count (λ j. Has left.entry.now i × Has right.entry.now j) result }
            { if left.contains(i) { right.word() } else { 0 } },
        );
    }

    /// Becomes each event of a set with itself.
    pub fn become_ident(&mut self, of: &Set)
        ensures { IsExactly of.now.count (λ i j. (i ≡ j) × Has of.now i) self.new }
    {
        self.fill(
            of.count(),
            |i|
                requires from { i < of.now.count }
                requires small { of.now.count ≤ 64 }
                ensures { IsRow of.entry.now.count (λ j. (i ≡ j) × Has of.entry.now i) result }
            { of.word() & (1u64 << i) },
        );
    }
}
