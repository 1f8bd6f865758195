//! The numbers of events, told by their names.

ghost use Rattle.std.specs.Prelude.{◌≡◌, ◌+◌, ◌<◌, ◌≤◌, ℕ, length, drop, sum_by, IfOk, MatchOption};
ghost use Rattle.events.specs.declared.event.EventId.TheVariants.{Initial, Own};
ghost use Rattle.events.specs.Named.{IsNumber};
ghost use Rattle.events.specs.Rows.{AreFirsts};

use super::numbered::Numbered;
use crate::event::EventId;
use crate::graph::Graph;
use crate::run::Run;
use std::alloc::{AllocError, Global};

/// The number of the first event of a thread, where so many events come before those of the threads.
fn first_of(before: usize, runs: &[Run], thread: usize) -> usize
    requires { before + sum_by (λ run. length run.events) runs.now ≤ 64 }
    ensures is { thread < length runs.now → result + sum_by (λ run. length run.events) (drop thread runs.now) ≡ before + sum_by (λ run. length run.events) runs.now }
    ensures small { result ≤ 64 }
{
    let mut first = before;
    for (other, run) in runs.iter().enumerate() {
        if other == thread {
            return first;
        }
        first += run.events().len();
    }
    first
}

/// The numbers of the threads' first events.
pub(super) fn first_numbers(alloc: Global, graph: &Graph) -> Result<Vec<usize>, AllocError>
    ensures { IfOk result (λ v. AreFirsts graph.now v.items) }
{
    let runs = graph.runs();
    let before = graph.init().len();
    let mut firsts = Vec::with_capacity(alloc, runs.len())?;
    for thread in 0..runs.len() {
        firsts.push(first_of(before, runs, thread))?;
    }
    Ok(firsts)
}

impl Numbered<'_> {
    /// The number of an event.
    pub(super) fn number_of(&self, event: EventId) -> Option<usize>
        ensures { MatchOption result ((i : ℕ) → ¬ IsNumber self.now i event) (λ i. IsNumber self.now i event) }
    {
        match event {
            EventId::Initial(location) => self.number_of_initial(location),
            EventId::Own(thread, place) => self.number_of_own(thread, place),
        }
    }

    // The number of the initial write of a location.
    #[inline(always)]
    fn number_of_initial(&self, location: usize) -> Option<usize>
        ensures { MatchOption result ((i : ℕ) → ¬ IsNumber self.now i (Initial location)) (λ i. IsNumber self.now i (Initial location)) }
    {
        if location < self.graph.init().len() {
            Some(location)
        } else {
            None
        }
    }

    // The number of an event of a thread.
    #[inline(always)]
    fn number_of_own(&self, thread: usize, place: usize) -> Option<usize>
        ensures { MatchOption result ((i : ℕ) → ¬ IsNumber self.now i (Own thread place)) (λ i. IsNumber self.now i (Own thread place)) }
    {
        let runs = self.graph.runs();
        if thread >= runs.len() {
            return None;
        }
        if place >= runs[thread].events().len() {
            return None;
        }
        prove!(thread < self.firsts.len());
        Some(self.firsts[thread] + place)
    }
}
