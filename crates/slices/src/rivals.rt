//! Exchanges and additions that read from one write: by atomicity one of them comes too late.

ghost use Rattle.std.specs.Prelude.{◌≡◌, ◌<◌, [], ◌∷◌, All, IfOk, IfSome, IsTrue};
ghost use Rattle.events.specs.Executions.{GraphValue, IsNamed};
ghost use Rattle.events.specs.Structures.{structure_of};
ghost use Rattle.listings.specs.Lists.{StandsAt};
ghost use Rattle.slices.specs.Reasons.{AreApart, AreRivals, ComesLate, HasOrder, HaveOneSource};

use crate::excerpts::{is_refuted, source_alone};
use cat_eval::Evaluator;
use events::{Access, EventId, Graph, Run};
use std::alloc::{AllocError, Global};

/// The read and the write of an exchange or an addition.
#[derive(Clone, Copy, PartialEq, Eq)]
pub(crate) struct Exchange {
    /// The place of the read among the reads of all threads.
    pub(crate) read: usize,
    pub(crate) location: usize,
    pub(crate) write: EventId,
}

/// Two exchanges, and the write that both read from.
#[derive(Clone, Copy, PartialEq, Eq)]
pub(crate) struct Rivals {
    pub(crate) first: Exchange,
    pub(crate) second: Exchange,
    pub(crate) source: EventId,
}

/// Adds the exchanges of a thread, before whose reads there are so many. Gives how many there are behind them.
fn add_exchanges(
    list: &mut Vec<Exchange>,
    thread: usize,
    run: &Run,
    before: usize,
) -> Result<usize, AllocError> {
    let mut read = before;
    for (place, event) in run.events().iter().enumerate() {
        if event.access == Access::ExRead {
            list.push(Exchange {
                read,
                location: event.loc,
                write: EventId::Own(thread, place.saturating_add(1)),
            })?;
        }
        if event.is_read() {
            read = read.saturating_add(1);
        }
    }
    Ok(read)
}

/// The exchanges and additions of an execution.
pub(crate) fn exchanges(alloc: Global, graph: &Graph) -> Result<Vec<Exchange>, AllocError> {
    let mut list = Vec::new(alloc);
    let mut reads = 0;
    for (thread, run) in graph.runs().iter().enumerate() {
        reads = add_exchanges(&mut list, thread, run, reads)?;
    }
    Ok(list)
}

impl Exchange {
    /// Whether its read reads from this write.
    pub(crate) fn reads_from(self, write: EventId, graph: &Graph) -> bool
        ensures { IsTrue result → StandsAt graph.now.rf self.read write }
    {
        match graph.rf().get(self.read) {
            Some(source) => *source == write,
            None => false,
        }
    }

    /// What its read reads from.
    pub(crate) fn source(self, graph: &Graph) -> Option<EventId> {
        graph.rf().get(self.read).copied()
    }

    /// Whether it is known of the evaluator's model that it allows no execution with the events of this one in which the read reads from this write, and
    /// its own write stands behind both it and the other, or before it.
    fn comes_late(
        self,
        alloc: Global,
        evaluator: &mut Evaluator<'_>,
        graph: &Graph,
        source: EventId,
        other: EventId,
    ) -> Result<bool, AllocError>
        requires named { All (IsNamed graph.now.init graph.now.runs) (source ∷ other ∷ self.write ∷ []) }
        requires relied { IfSome evaluator.old.relied (λ s. s ≡ structure_of graph.now) }
        ensures model { evaluator.new.items ≡ evaluator.old.items }
        ensures relied { IfSome evaluator.new.relied (λ s. s ≡ structure_of graph.now) }
        ensures late { IfOk result (λ known. IsTrue known → ComesLate evaluator.old.items (structure_of graph.now) self source other) }
    {
        let sources = source_alone(alloc, self.read, source)?;
        let behind = [source, other, self.write];
        if !is_refuted(alloc, evaluator, graph, &sources, &behind)? {
            return Ok(false);
        }
        is_refuted(alloc, evaluator, graph, &sources, &[self.write, source])
    }
}

impl Rivals {
    /// Whether the three writes stand in the order of the location.
    fn have_order(self, graph: &Graph) -> bool
        ensures { IsTrue result → HasOrder self graph.now }
    {
        match graph.co().get(self.first.location) {
            Some(order) => {
                let writes = order.writes();
                writes.contains(&self.source)
                    && writes.contains(&self.first.write)
                    && writes.contains(&self.second.write)
            }
            None => false,
        }
    }

    /// Whether both read from the write in an execution.
    pub(crate) fn are_in(self, graph: &Graph) -> bool
        ensures { IsTrue result → HaveOneSource self graph.now }
    {
        self.second.reads_from(self.source, graph)
            && self.first.reads_from(self.source, graph)
            && self.have_order(graph)
    }

    /// Whether it is known what both read from, where so many of the first sources are.
    pub(crate) fn are_known(self, reads: usize) -> bool
        ensures { IsTrue result → (self.first.read < reads) × (self.second.read < reads) }
    {
        self.first.read < reads && self.second.read < reads
    }

    /// Whether these are three writes.
    fn are_apart(self) -> bool
        ensures { IsTrue result → AreApart self }
    {
        self.source != self.first.write
            && self.source != self.second.write
            && self.first.write != self.second.write
    }

    /// Whether it is known of the evaluator's model that it allows no execution with the events of this one in which both read from the write.
    pub(crate) fn are_rivals(
        self,
        alloc: Global,
        evaluator: &mut Evaluator<'_>,
        graph: &Graph,
    ) -> Result<bool, AllocError>
        requires so { HaveOneSource self graph.now }
        requires relied { IfSome evaluator.old.relied (λ s. s ≡ structure_of graph.now) }
        ensures model { evaluator.new.items ≡ evaluator.old.items }
        ensures relied { IfSome evaluator.new.relied (λ s. s ≡ structure_of graph.now) }
        ensures rivals { IfOk result (λ known. IsTrue known → AreRivals evaluator.old.items (structure_of graph.now) self) }
    {
        // They tell that the orders are of events.
        let _ = graph.runs();
        let Rivals {
            first,
            second,
            source,
        } = self;
        if !self.are_apart() {
            return Ok(false);
        }
        if !first.comes_late(alloc, evaluator, graph, source, second.write)? {
            return Ok(false);
        }
        second.comes_late(alloc, evaluator, graph, source, first.write)
    }
}
