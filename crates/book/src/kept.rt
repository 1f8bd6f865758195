//! The book: its state, and the journal of every call.

ghost use Rattle.std.specs.Prelude.{◌≡◌, ◌<◌, ◌≤◌, ◌+◌, ◌^◌, ◌∷◌, ◌++◌, [], length, true, IfOk, IfErr, OnOk, OnErr};
ghost use Rattle.std.specs.Arc.{arc_value};
ghost use Rattle.book.specs.Kept.{lines, is_ready, IsKept};
ghost use Rattle.journal.specs.Lines.{answers, seen};
ghost use Rattle.book.specs.Step.{Legal, Step};
ghost use Rattle.book.specs.Workbench.{empty};

use crate::limits::Limits;
use crate::plan::Plan;
use crate::workbench::Bench;
use journal::{Command, Entry, Reply};
use std::alloc::{AllocError, Global};
use std::marker::Model;
use std::sync::Arc;

/// Why a call was not recorded.
#[derive(Clone, Copy, Debug, Drop, PartialEq, Eq)]
pub enum Refused {
    JournalFull,
    NoMemory,
}

/// The book. Its journal leads to its state.
pub struct Book {
    alloc: Global,
    limits: Limits,
    bench: Bench,
    journal: Vec<Arc<Entry>>,
}

// A function of its own: whoever holds one drops it by a call.
impl Drop for Book {
    fn drop(self) {
        let Book {
            alloc: _,
            limits: _,
            bench: _,
            journal: _,
        } = self;
    }
}

impl Model for Book {
    ghost use Rattle.book.specs.BenchCodes.{coded_kept};
    ghost use Rattle.book.specs.Kept.{Kept, lines, IsKept};

    ghost Value = { Kept };

    ghost coded = { coded_kept };

    ghost view = { λ b. record { limits = b.limits; journal = lines b.journal.items; state = b.bench } };

    ghost invariant = { λ b. IsKept b.limits (lines b.journal.items) b.bench };
}

impl Book {
    /// The empty book, with room for its first entry.
    pub fn new(alloc: Global, limits: Limits) -> Result<Self, AllocError>
        ensures { IfOk result (λ b. b ≡ record { limits = limits; journal = []; state = empty limits }) }
    {
        Ok(Book {
            alloc,
            limits,
            bench: Bench::new(alloc, limits)?,
            journal: Vec::with_capacity(alloc, 1)?,
        })
    }

    /// Records a command with its reply, or changes nothing and hands the command back.
    pub fn apply(&mut self, seat: u8, command: Command) -> Result<Arc<Entry>, (Command, Refused)>
        requires { seat < 64 }
        ensures journal { IfOk result (λ e. self.new.journal ≡ self.old.journal ++ arc_value e ∷ []) }
        ensures entry { IfOk result (λ e. ((arc_value e).place ≡ length self.old.journal)
            × ((arc_value e).seat ≡ seat) × ((arc_value e).said ≡ seen command)) }
        ensures step { IfOk result (λ e.
            Step self.old.state seat (seen command) (arc_value e).reply self.new.state) }
        ensures limits { self.new.limits ≡ self.old.limits }
        ensures same { OnErr result (self.new ≡ self.old) }
        ensures back { IfErr result (λ e. e.0 ≡ command) }
        // The journal is full exactly where it has as many entries as it may have.
        ensures full { self.old.limits.journal ≤ length self.old.journal
            → IfErr result (λ e. e.1 ≡ Refused.JournalFull) }
        ensures only { IfErr result (λ e.
            e.1 ≡ Refused.JournalFull → length self.old.journal ≡ self.old.limits.journal) }
        ensures room { OnOk result (length self.old.journal < self.old.limits.journal) }
    {
        let place = self.journal.len();
        if place >= self.limits.journal as usize {
            return Err((command, Refused::JournalFull));
        }
        match self.recorded(place as u32, seat, &command) {
            Ok(entry) => Ok(entry),
            Err(AllocError) => Err((command, Refused::NoMemory)),
        }
    }

    // All that takes memory comes first. The change and the push come last.
    fn recorded(
        &mut self,
        place: u32,
        seat: u8,
        command: &Command,
    ) -> Result<Arc<Entry>, AllocError>
        requires place { place ≡ length self.old.journal }
        requires room { place < self.old.limits.journal }
        requires next { place + 1 < 2 ^ 32 }
        ensures journal { IfOk result (λ e. self.new.journal ≡ self.old.journal ++ arc_value e ∷ []) }
        ensures entry { IfOk result (λ e. ((arc_value e).place ≡ place)
            × ((arc_value e).seat ≡ seat) × ((arc_value e).said ≡ seen command.now)) }
        ensures step { IfOk result (λ e.
            Step self.old.state seat (seen command.now) (arc_value e).reply self.new.state) }
        ensures limits { self.new.limits ≡ self.old.limits }
        ensures same { OnErr result (self.new ≡ self.old) }
    {
        self.journal.try_reserve(1)?;
        let Plan { reply, change } = self.bench.decide(self.alloc, seat, command)?;
        let (entry, copy) = shared_entry(self.alloc, place, seat, command, reply)?;
        self.bench.commit(change)?;
        match self.journal.push(copy) {
            Ok(()) => Ok(entry),
            Err(_) => unreachable!(),
        }
    }

    /// What bounds the book.
    pub fn limits(&self) -> Limits
        ensures { result ≡ self.now.limits }
    {
        self.limits
    }

    /// The entries so far: a legal journal, which leads to the state.
    pub fn journal(&self) -> &[Arc<Entry>]
        ensures journal { lines result.now ≡ self.now.journal }
        ensures kept { IsKept self.now.limits self.now.journal self.now.state }
        ensures legal { Legal self.now.limits (lines result.now) }
    {
        self.journal.as_slice()
    }

    /// The entries, once the book is no longer needed: a legal journal.
    pub fn into_journal(self) -> Vec<Arc<Entry>>
        ensures journal { lines result.items ≡ self.journal }
        ensures legal { Legal self.limits (lines result.items) }
    {
        let Book {
            alloc: _,
            limits: _,
            bench: _,
            journal,
        } = self;
        journal
    }

    /// Whether a worker has something to do: a slice is free, the book is closed or the journal is full.
    pub fn ready(&self) -> bool
        ensures { result ≡ is_ready self.now }
    {
        self.bench.any_free()
            || self.bench.is_closed()
            || self.limits.journal as usize <= self.journal.len()
    }
}

/// The entry of a command and its reply, for the caller and for the journal.
fn shared_entry(
    alloc: Global,
    place: u32,
    seat: u8,
    command: &Command,
    reply: Reply,
) -> Result<(Arc<Entry>, Arc<Entry>), AllocError>
    requires { answers (seen command.now) reply ≡ true }
    ensures both { IfOk result (λ p. arc_value p.1 ≡ arc_value p.0) }
    ensures entry { IfOk result (λ p. arc_value p.0 ≡ record {
      place = place;
      seat = seat;
      said = seen command.now;
      reply = reply;
    }) }
{
    let entry = Arc::new(alloc, Entry::new(place, seat, command.seen()?, reply))?;
    let copy = Arc::try_clone(&entry)?;
    Ok((entry, copy))
}
