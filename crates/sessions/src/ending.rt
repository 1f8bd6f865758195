//! The end of a desk: each pass's receipts are compared with the journal.

ghost use Rattle.std.specs.Prelude.{◌≡◌, ◌<◌, ◌≤◌, ◌+◌, ℕ, true, false, IfOk, IfErr, All, map, MatchOption, length, slice_get, ◌≢◌};
ghost use Rattle.book.specs.Kept.{lines};
ghost use Rattle.sessions.specs.Views.{spent};
ghost use Rattle.sessions.specs.Finish.{has_seat, AllHere, AllFit, SomeUnfit, Fits, Unfit, receipts_of, IsLegal, IsShared, IsAmiss, IsFault};
ghost use Rattle.sessions.specs.Labels.{finish_label};

use crate::desks::{Desk, Shared};
use crate::passes::{Pass, Receipt};
use book::Entry;
use std::marker::Model;
use std::sync::Arc;
use std::sync::ledger::{Ledger, Share};
use thiserror::Error;

/// The journal and the passes of a desk that has ended.
#[derive(Drop)]
pub struct Closed<L: Ledger> {
    pub journal: Vec<Arc<Entry>>,
    pub passes: Vec<Pass<L>>,
}

/// Why the receipts of the passes are not the journal.
#[derive(Clone, Copy, Debug, Drop, PartialEq, Eq, Error)]
pub enum FinishCause {
    /// A seat has no pass. It is the lowest such seat.
    #[error("{label} {0}", label = self.label())]
    MissingPass(u8),
    /// A receipt of this place isn't the journal's entry there, or its place isn't above that of the receipt before it.
    #[error("{label} {0}", label = self.label())]
    Mismatch(u32),
}

impl FinishCause {
    /// The number and the name that a printed fault has for this cause.
    pub fn label(self) -> &'static str
        ensures { result.now ≡ finish_label self }
    {
        match self {
            FinishCause::MissingPass(_) => "91 MissingPass",
            FinishCause::Mismatch(_) => "92 Mismatch",
        }
    }
}

/// A cause, with the journal and the passes.
#[derive(Drop)]
pub struct FinishFault<L: Ledger> {
    pub cause: FinishCause,
    pub closed: Closed<L>,
}

/// Ends a desk: its journal is what the passes have receipts of, or there is a fault. It takes no memory.
pub fn finish<L: Ledger>(desk: Desk<L>, passes: Vec<Pass<L>>) -> Result<Closed<L>, FinishFault<L>>
    requires { All (λ p. p.parts ≡ 1) passes.items }
    ensures legal { IfOk result (λ c. IsLegal (lines c.journal.items)) }
    ensures here { IfOk result (λ c. AllHere desk passes.items) }
    ensures count { IfOk result (λ c. length (lines c.journal.items) ≡ receipts_of passes.items) }
    ensures shared { IfOk result (λ c. IsShared (lines c.journal.items) passes.items) }
    ensures passes { IfOk result (λ c. map spent c.passes.items ≡ map spent passes.items) }
    ensures err_legal { IfErr result (λ f. IsLegal (lines f.closed.journal.items)) }
    ensures err { IfErr result (λ f. IsFault desk passes.items (lines f.closed.journal.items) f.cause) }
    ensures err_passes { IfErr result (λ f. map spent f.closed.passes.items ≡ map spent passes.items) }
{
    let Desk {
        seats,
        shared,
        wake: _,
    } = desk;
    let Shared { book, count, rest } = shared.into_inner();
    let journal = book.into_journal();
    let mut passes = passes;
    let amiss = first_amiss(seats, journal.as_slice(), passes.as_slice());
    let mut all = rest;
    let mut count = count;
    gather(&mut passes, &mut all);
    count.audit(&mut all);
    match amiss {
        None => Ok(Closed { journal, passes }),
        Some(cause) => Err(FinishFault {
            cause,
            closed: Closed { journal, passes },
        }),
    }
}

// The lowest seat without a pass, or else the first receipt that isn't the journal's.
fn first_amiss<L: Ledger>(n: u8, journal: &[Arc<Entry>], passes: &[Pass<L>]) -> Option<FinishCause>
    ensures { MatchOption result (AllHere n passes.now × AllFit (lines journal.now) passes.now) (λ cause. IsAmiss n passes.now (lines journal.now) cause) }
{
    match lowest_missing(passes, n) {
        Some(seat) => Some(FinishCause::MissingPass(seat)),
        None => match first_unfit(journal, passes) {
            Some(place) => Some(FinishCause::Mismatch(place)),
            None => None,
        },
    }
}

fn present<L: Ledger>(passes: &[Pass<L>], seat: u8) -> bool
    ensures { result ≡ has_seat passes.now seat }
{
    passes.iter().any(|p| p.seat() == seat)
}

fn lowest_missing<L: Ledger>(passes: &[Pass<L>], n: u8) -> Option<u8>
    ensures { MatchOption result (AllHere n passes.now) (λ k. (k < n) × (has_seat passes.now k ≡ false) × AllHere k passes.now) }
{
    for seat in 0..n {
        if !present(passes, seat) {
            return Some(seat);
        }
    }
    None
}

// All shares go to one.
fn gather<L: Ledger>(passes: &mut Vec<Pass<L>>, all: &mut Share<L>)
    requires parts { All (λ p. p.parts ≡ 1) passes.old.items }
    requires none { (all.old.parts ≡ 0) × (all.old.amount ≡ 0) }
    ensures passes { passes.new.items ≡ map spent passes.old.items }
    ensures parts { all.new.parts ≡ length passes.old.items }
    ensures amount { all.new.amount ≡ receipts_of passes.old.items }
    ensures bound { all.new.parts ≤ L.parts }
{
    for i in 0..passes.len() {
        let pass = &mut passes[i];
        pass.give(all);
    }
}

fn first_unfit<L: Ledger>(journal: &[Arc<Entry>], passes: &[Pass<L>]) -> Option<u32>
    ensures { MatchOption result (AllFit (lines journal.now) passes.now) (λ place. SomeUnfit (lines journal.now) passes.now place) }
{
    for pass in passes {
        if let Some(place) = unfit(journal, pass.receipts()) {
            return Some(place);
        }
    }
    None
}

fn unfit(journal: &[Arc<Entry>], receipts: &[Receipt]) -> Option<u32>
    ensures { MatchOption result (Fits (lines journal.now) 0 receipts.now) (λ place. Unfit (lines journal.now) 0 receipts.now place) }
{
    let mut next = 0;
    for receipt in receipts {
        let place = receipt.entry().place();
        if (place as usize) < next || !stands(journal, place as usize, receipt.entry()) {
            return Some(place);
        }
        next = place as usize + 1;
    }
    None
}

fn stands(journal: &[Arc<Entry>], place: usize, entry: &Entry) -> bool
    ensures yes { result ≡ true → slice_get (lines journal.now) place ≡ Some entry.now }
    ensures no { result ≡ false → slice_get (lines journal.now) place ≢ Some entry.now }
{
    if place >= journal.len() {
        return false;
    }
    Entry::eq(&journal[place], entry)
}
