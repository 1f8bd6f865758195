//! Reasons why executions are forbidden.

ghost use Rattle.std.specs.Prelude.{◌≡◌, IfOk, IfSome, IsTrue};
ghost use Rattle.events.specs.Structures.{structure_of};
ghost use Rattle.slices.specs.Reasons.{HasAt, IsFatal, IsKnown};

use crate::pair::Pair;
use crate::rivals::Rivals;
use cat_eval::Evaluator;
use events::{Cut, Graph};
use std::alloc::{AllocError, Global};

/// What an execution may have that no allowed one with its events has.
#[derive(Clone, Copy, PartialEq, Eq)]
pub(crate) enum Reason {
    /// Two writes in one order.
    Pair(Pair),
    /// Two exchanges that read from one write.
    Rivals(Rivals),
}

impl Reason {
    /// Whether an execution has it.
    pub(crate) fn is_in(self, graph: &Graph) -> bool
        ensures { IsTrue result → HasAt self graph.now }
    {
        match self {
            Reason::Pair(pair) => pair.is_in(graph),
            Reason::Rivals(rivals) => rivals.are_in(graph),
        }
    }

    /// Whether it is told by what is known of executions.
    pub(crate) fn is_known(self, cut: Cut<'_>) -> bool
        ensures { IsTrue result → IsKnown self cut.entry }
    {
        match self {
            Reason::Pair(pair) => pair.is_placed(cut),
            Reason::Rivals(rivals) => rivals.are_known(cut.reads),
        }
    }

    /// Whether it is known of the evaluator's model that it allows no execution with the events of this one that has it.
    #[inline(never)]
    pub(crate) fn is_fatal(
        self,
        alloc: Global,
        evaluator: &mut Evaluator<'_>,
        graph: &Graph,
    ) -> Result<bool, AllocError>
        requires has { HasAt self graph.now }
        requires relied { IfSome evaluator.old.relied (λ s. s ≡ structure_of graph.now) }
        ensures model { evaluator.new.items ≡ evaluator.old.items }
        ensures relied { IfSome evaluator.new.relied (λ s. s ≡ structure_of graph.now) }
        ensures fatal { IfOk result (λ known. IsTrue known → IsFatal evaluator.old.items (structure_of graph.now) self) }
    {
        match self {
            Reason::Pair(pair) => pair.is_misplaced(alloc, evaluator, graph),
            Reason::Rivals(rivals) => rivals.are_rivals(alloc, evaluator, graph),
        }
    }
}
