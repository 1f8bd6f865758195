//! The desk: the book under one lock, with the count of its calls.

ghost use Rattle.std.specs.Prelude.{◌≡◌, ◌<◌, ◌≤◌, length, All, IfOk, IfErr, OnOk, OnErr};
ghost use Rattle.journal.specs.Lines.{seen};
ghost use Rattle.sessions.specs.Calls.{Adds, Steps};
ghost use Rattle.sessions.specs.Views.{fresh_from};

use crate::passes::{Pass, Receipt};
use book::{Book, Command, Limits, Refused};
use std::alloc::{AllocError, Global};
use std::marker::Model;
use std::sync::ledger::{Blank, Book as Count, Ledger, Share};
use std::sync::{Condvar, Mutex, Wait};

/// What the lock holds: the book, and the count of its calls, which is the journal's length.
// The rest is a share with no part, in which `finish` gathers those of the passes. It stands here since a `Share` can't be lent to
// several threads.
#[derive(Drop)]
pub struct Shared<L: Ledger> {
    pub(crate) book: Book,
    pub(crate) count: Count<L>,
    pub(crate) rest: Share<L>,
}

impl<L: Ledger> Model for Shared<L> {
    ghost use Rattle.std.specs.Prelude.{◌≡◌, length};
    ghost use Rattle.book.specs.BenchCodes.{coded_kept};
    ghost use Rattle.book.specs.Kept.{Kept};

    ghost Value = { Kept };

    ghost coded = { coded_kept };

    ghost view = { λ s. s.book };

    ghost invariant = { λ s. record { counted : s.count.total ≡ length s.book.journal; no_part : s.rest.parts ≡ 0; nothing : s.rest.amount ≡ 0 } };
}

impl<L: Ledger> Shared<L> {
    /// The book. Its journal is legal and leads to its workbench.
    pub fn book(&self) -> &Book
        ensures { result.now ≡ self.now }
    {
        &self.book
    }

    /// Applies a command at the seat of the pass, which has the entry as its next receipt; or changes nothing and hands the
    /// command back. The pass grows first.
    pub fn step(&mut self, pass: &mut Pass<L>, command: Command) -> Result<(), (Command, Refused)>
        requires { pass.old.parts ≡ 1 }
        ensures step { OnOk result (Steps self.old self.new pass.old pass.new (seen command)) }
        ensures limits { self.new.limits ≡ self.old.limits }
        ensures same { OnErr result ((self.new ≡ self.old) × (pass.new ≡ pass.old)) }
        ensures back { IfErr result (λ e. e.0 ≡ command) }
        ensures only { IfErr result (λ e.
            e.1 ≡ Refused.JournalFull → length self.old.journal ≡ self.old.limits.journal) }
        ensures room { OnOk result (length self.old.journal < self.old.limits.journal) }
    {
        if pass.receipts.try_reserve(1).is_err() {
            return Err((command, Refused::NoMemory));
        }
        let entry = self.book.apply(pass.seat, command)?;
        match pass.receipts.push(Receipt::new(entry)) {
            Ok(()) => {}
            Err(_) => unreachable!(),
        }
        self.count.add(&mut pass.share, 1);
        Ok(())
    }
}

/// A book that several threads share. Contracts see how many seats it has.
#[derive(Drop)]
pub struct Desk<L: Ledger> {
    pub(crate) seats: u8,
    pub(crate) shared: Mutex<Shared<L>>,
    pub(crate) wake: Condvar,
}

impl<L: Ledger> Model for Desk<L> {
    ghost use Rattle.std.specs.Prelude.{◌≡◌, ◌≤◌, ℕ};

    ghost Value = { ℕ };

    ghost view = { λ d. d.seats };

    ghost invariant = { λ d. (d.seats ≡ L.parts) × (d.seats ≤ 64) };
}

/// A desk of n seats with an empty book, and a pass for each seat.
#[tactic(auto, using(crate::proofs::Fresh::fresh_from_more, crate::proofs::Fresh::length_fresh))]
pub fn open<L: Ledger>(
    alloc: Global,
    blank: Blank,
    limits: Limits,
    n: u8,
) -> Result<(Desk<L>, Vec<Pass<L>>), AllocError>
    requires name { blank.name ≡ L.name }
    requires parts { (blank.parts ≡ L.parts) × (blank.parts ≡ n) }
    requires seats { (0 < n) × (n ≤ 64) }
    ensures desk { IfOk result (λ r. r.0 ≡ n) }
    ensures passes { IfOk result (λ r. r.1.items ≡ fresh_from 0 n) }
    ensures number { IfOk result (λ r. length r.1.items ≡ n) }
    ensures shares { IfOk result (λ r. All (λ p. p.parts ≡ 1) r.1.items) }
{
    let (count, mut rest) = blank.open::<L>();
    let book = Book::new(alloc, limits)?;
    let mut passes = Vec::new(alloc);
    for seat in 0..n {
        let share = rest.split_off(1, 0);
        passes.push(Pass::new(alloc, seat, share))?;
    }
    let shared = Mutex::new(Shared { book, count, rest });
    let desk = Desk {
        seats: n,
        shared,
        wake: Condvar::new(),
    };
    Ok((desk, passes))
}

impl<L: Ledger> Desk<L> {
    /// One step under the lock, which then wakes those that wait.
    pub fn call<R: Wait>(
        &self,
        rt: &R,
        pass: &mut Pass<L>,
        command: Command,
    ) -> Result<(), (Command, Refused)>
        requires { pass.old.parts ≡ 1 }
        ensures receipt { OnOk result (Adds pass.old pass.new (seen command)) }
        ensures same { OnErr result (pass.new ≡ pass.old) }
        ensures back { IfErr result (λ e. e.0 ≡ command) }
    {
        let mut guard = self.shared.lock(rt);
        let answer = guard.step(pass, command);
        drop(guard);
        self.wake.notify_all();
        answer
    }

    /// Waits until a slice is free, the book is closed or its journal is full.
    pub fn wait_work<R: Wait>(&self, rt: &R) {
        let guard = self.shared.lock(rt);
        let _guard = self
            .wake
            .wait_while(rt, guard, |shared| !shared.book.ready());
    }
}
