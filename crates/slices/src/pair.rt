//! Writes in one order: mostly those of a thread that stand against its program order.

ghost use Rattle.std.specs.Prelude.{◌≡◌, ◌+◌, [], ◌∷◌, IfOk, IfSome, IsTrue};
ghost use Rattle.events.specs.Cuts.{cut_down};
ghost use Rattle.events.specs.Executions.{GraphValue};
ghost use Rattle.events.specs.Extends.{IsPartOfOne};
ghost use Rattle.events.specs.Structures.{structure_of};
ghost use Rattle.slices.specs.Reasons.{HasPair, IsMisplaced, StandsSo};

use crate::excerpts::is_refuted;
use cat_eval::Evaluator;
use events::{Cut, EventId, Graph};
use std::alloc::{AllocError, Global};

/// Two writes to a location, the first before the second in its order.
#[derive(Clone, Copy, PartialEq, Eq)]
pub(crate) struct Pair {
    pub(crate) location: usize,
    pub(crate) first: EventId,
    pub(crate) second: EventId,
}

impl Pair {
    /// Whether it stands so in an order.
    fn stands_in(self, order: &[EventId]) -> bool
        ensures { IsTrue result → StandsSo self order.now }
    {
        let mut begun = false;
        for write in order {
            if *write == self.second {
                return begun;
            }
            if *write == self.first {
                begun = true;
            }
        }
        false
    }

    /// Whether it stands so in an execution.
    pub(crate) fn is_in(self, graph: &Graph) -> bool
        ensures { IsTrue result → HasPair self graph.now }
    {
        match graph.co().get(self.location) {
            Some(order) => self.stands_in(order.writes()),
            None => false,
        }
    }

    /// Whether both writes have their places in what is known of an execution.
    pub(crate) fn is_placed(self, cut: Cut<'_>) -> bool
        ensures { IsTrue result → (x : GraphValue) → HasPair self x → IsPartOfOne (cut_down x cut.entry).co (self.first ∷ self.second ∷ []) }
    {
        if cut.locations == self.location {
            return !cut.unplaced.contains(&self.first) && !cut.unplaced.contains(&self.second);
        }
        cut.locations < self.location
    }

    /// Whether it is known of the evaluator's model that it allows no execution with the events of this one in which the pair stands so.
    pub(crate) fn is_misplaced(
        self,
        alloc: Global,
        evaluator: &mut Evaluator<'_>,
        graph: &Graph,
    ) -> Result<bool, AllocError>
        requires pair { HasPair self graph.now }
        requires relied { IfSome evaluator.old.relied (λ s. s ≡ structure_of graph.now) }
        ensures model { evaluator.new.items ≡ evaluator.old.items }
        ensures relied { IfSome evaluator.new.relied (λ s. s ≡ structure_of graph.now) }
        ensures misplaced { IfOk result (λ known. IsTrue known → IsMisplaced evaluator.old.items (structure_of graph.now) self) }
    {
        // They tell that the orders are of events.
        let _ = graph.runs();
        is_refuted(alloc, evaluator, graph, &[], &[self.first, self.second])
    }
}
