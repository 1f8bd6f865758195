//! Passes, each of which makes the calls of one session.

ghost use Rattle.std.specs.Prelude.{◌≡◌, ◌<◌, ◌≤◌, ◌+◌, ◌↔◌, IsTrue, length};
ghost use Rattle.std.specs.Arc.{arc_value};
ghost use Rattle.sessions.specs.Views.{IsOfSeat, fresh, spent};

use book::Entry;
use std::alloc::Global;
use std::marker::Model;
use std::sync::Arc;
use std::sync::ledger::{Ledger, Share};

/// What the last run of a worker did with a pass.
#[derive(Clone, Copy, Default, Debug, Drop, PartialEq, Eq)]
pub struct Counts {
    /// Evaluations that were done.
    pub evaluated: u64,
    /// Claims given back.
    pub given_back: u64,
    /// Calls refused in whole.
    pub refused: u64,
}

/// An entry of the journal, kept by the pass whose call it is. Contracts see the entry.
pub struct Receipt {
    entry: Arc<Entry>,
}

// A function of its own: whoever holds one drops it by a call.
impl Drop for Receipt {
    fn drop(self) {
        let Receipt { entry: _ } = self;
    }
}

impl Model for Receipt {
    ghost use Rattle.std.specs.Arc.{arc_value};
    ghost use Rattle.journal.specs.LineCodes.{coded_line};
    ghost use Rattle.journal.specs.Lines.{Line};

    ghost Value = { Line };

    ghost coded = { coded_line };

    ghost view = { λ r. arc_value r.entry };
}

impl Receipt {
    pub(crate) fn new(entry: Arc<Entry>) -> Receipt
        ensures { result ≡ arc_value entry }
    {
        Receipt { entry }
    }

    /// The entry, which the journal shares.
    pub fn entry(&self) -> &Entry
        ensures { result.now ≡ self.now }
    {
        &self.entry
    }
}

impl PartialEq for Receipt {
    ghost use Rattle.journal.specs.LineCodes.{coded_line};
    ghost use Rattle.slices.specs.Same.{same, same_partial_equivalence};

    ghost eq = { same coded_line };

    ghost laws = { same_partial_equivalence coded_line };

    fn eq(&self, other: &Receipt) -> bool
        ensures value { result ≡ same coded_line self.now other.now }
        ensures exact { IsTrue result ↔ (self.now ≡ other.now) }
    {
        Entry::eq(self.entry(), other.entry())
    }
}

impl Eq for Receipt {
    ghost use Rattle.journal.specs.LineCodes.{coded_line};
    ghost use Rattle.slices.specs.Same.{same_equivalence};

    ghost laws = { same_equivalence coded_line };
}

/// A seat at a desk, with the receipts of its calls in their order, and a share of the desk's count of calls.
pub struct Pass<L: Ledger> {
    pub(crate) seat: u8,
    pub(crate) receipts: Vec<Receipt>,
    pub(crate) counts: Counts,
    pub(crate) share: Share<L>,
}

// A function of its own: whoever holds one drops it by a call.
impl<L: Ledger> Drop for Pass<L> {
    fn drop(self) {
        let Pass {
            seat: _,
            receipts: _,
            counts: _,
            share: _,
        } = self;
    }
}

impl<L: Ledger> Model for Pass<L> {
    ghost use Rattle.sessions.specs.PassCodes.{coded_pass};
    ghost use Rattle.sessions.specs.Views.{PassView, IsPass};

    ghost Value = { PassView };

    ghost coded = { coded_pass };

    ghost view = { λ p. record { seat = p.seat; receipts = p.receipts.items; counts = p.counts; parts = p.share.parts } };

    ghost invariant = { λ p. IsPass p.seat p.receipts.items p.share.parts p.share.amount };
}

impl<L: Ledger> Pass<L> {
    pub(crate) fn new(alloc: Global, seat: u8, share: Share<L>) -> Pass<L>
        requires { (seat < 64) × (share.parts ≡ 1) × (share.amount ≡ 0) }
        ensures { result ≡ fresh seat }
    {
        Pass {
            seat,
            receipts: Vec::new(alloc),
            counts: Counts {
                evaluated: 0,
                given_back: 0,
                refused: 0,
            },
            share,
        }
    }

    /// The number of the pass.
    pub fn seat(&self) -> u8
        ensures { result ≡ self.now.seat }
    {
        self.seat
    }

    /// The entries of its calls, in their order.
    pub fn receipts(&self) -> &[Receipt]
        ensures receipts { result.now ≡ self.now.receipts }
        ensures of_seat { IsOfSeat self.now.seat self.now.receipts }
    {
        self.receipts.as_slice()
    }

    /// What the last run of a worker did.
    pub fn counts(&self) -> Counts
        ensures { result ≡ self.now.counts }
    {
        self.counts
    }

    /// Notes what a run of a worker did.
    pub fn set_counts(&mut self, counts: Counts)
        ensures { self.new ≡ record self.old { counts = counts } }
    {
        self.counts = counts;
    }

    /// Gives its share away.
    pub(crate) fn give(&mut self, all: &mut Share<L>)
        requires { self.old.parts ≡ 1 }
        ensures pass { self.new ≡ spent self.old }
        ensures parts { all.new.parts ≡ all.old.parts + 1 }
        ensures amount { all.new.amount ≡ all.old.amount + length self.old.receipts }
        ensures bound { all.new.parts ≤ L.parts }
    {
        self.share.give(all, 1, self.receipts.len() as u64);
    }
}
