//! What is found while executions are counted.

ghost use Rattle.std.specs.Prelude.{◌≡◌, ◌+◌, ◌<◌, ◌^◌, [], length, OnOk};
ghost use Rattle.slices.specs.Gathered.{IsKept};
ghost use Rattle.slices.specs.Numbers.{HasNumber};
ghost use Rattle.slices.specs.Sums.{IsSum, of_state};

use crate::draft::Draft;
use crate::finding::Finding;
use crate::recent::{Known, Recent};
use events::EventId;
use std::alloc::{AllocError, Global};

/// What is found so far, the final states that were found last, and the one at hand. A state that comes again costs a look, and asks for no memory.
#[derive(Drop)]
pub(crate) struct Gathering {
    pub(crate) finding: Finding,
    pub(crate) recent: Recent,
    pub(crate) state: Draft,
    // The writes that stand last in it.
    pub(crate) lasts: Vec<EventId>,
}

impl Gathering {
    /// Begins with what is found so far, at so many places.
    pub(crate) fn new(alloc: Global, finding: Finding, places: usize) -> Self
        requires { length finding.places ≡ places }
        ensures finding { result.finding ≡ finding }
        ensures kept { IsKept result }
    {
        Gathering {
            finding,
            recent: Recent::new(),
            state: Draft::new(alloc, places),
            lasts: Vec::new(alloc),
        }
    }

    /// What is found.
    pub(crate) fn into_finding(self) -> Finding
        ensures { result ≡ self.finding }
    {
        let Gathering {
            finding,
            recent: _,
            state: _,
            lasts: _,
        } = self;
        finding
    }

    /// Counts the state at hand so many times.
    pub(crate) fn add(&mut self, times: u64) -> Result<(), AllocError>
        requires kept { IsKept self.old }
        requires few { self.old.finding.positive + self.old.finding.negative + times < 2 ^ 64 }
        requires whole { length self.old.finding.places ≡ length self.old.state.values.items }
        requires number { HasNumber self.old.state.base self.old.state.values.items self.old.state.number }
        ensures kept { OnOk result (IsKept self.new) }
        ensures sum { OnOk result (IsSum self.old.finding (of_state self.old.finding self.old.state.values.items times []) self.new.finding) }
    {
        let Some(number) = self.state.number else {
            self.finding.add(self.state.take_row(), times)?;
            return Ok(());
        };
        match self.recent.find(number) {
            Some(has) => self.finding.count(has, times),
            None => {
                let has = self.finding.add(self.state.take_row(), times)?;
                self.recent.note(Known { number, has });
            }
        }
        Ok(())
    }
}
