//! What a model says of executions of which little is known.

ghost use Rattle.std.specs.Prelude.{◌≡◌, All, IfOk, IfSome, IsTrue};
ghost use Rattle.events.specs.Executions.{GraphValue, IsNamed};
ghost use Rattle.events.specs.Structures.{structure_of};
ghost use Rattle.listings.specs.Lists.{StandsAt};
ghost use Rattle.slices.specs.Reasons.{HasSources, IsRefuted};

use cat_eval::Evaluator;
use events::{EventId, Excerpt, Graph, Part};
use std::alloc::{AllocError, Global};

/// Stands for a source that isn't known: no execution has so many locations.
const NOBODY: EventId = EventId::Initial(64);

/// Sources of the first reads, of which that of the read at this place alone is known.
pub(crate) fn source_alone(
    alloc: Global,
    read: usize,
    write: EventId,
) -> Result<Vec<EventId>, AllocError>
    ensures { IfOk result (λ sources. (x : GraphValue) → StandsAt x.rf read write → HasSources sources.items x) }
{
    let mut sources = Vec::new(alloc);
    for _unknown in 0..read {
        sources.push(NOBODY)?;
    }
    sources.push(write)?;
    Ok(sources)
}

/// Whether it is known of the evaluator's model that it allows no execution with the events of this one whose reads have these sources, and in which these
/// writes stand in this order.
#[inline(never)]
pub(crate) fn is_refuted(
    alloc: Global,
    evaluator: &mut Evaluator<'_>,
    graph: &Graph,
    sources: &[EventId],
    order: &[EventId],
) -> Result<bool, AllocError>
    requires named { All (IsNamed graph.now.init graph.now.runs) order.now }
    requires relied { IfSome evaluator.old.relied (λ s. s ≡ structure_of graph.now) }
    ensures model { evaluator.new.items ≡ evaluator.old.items }
    ensures relied { IfSome evaluator.new.relied (λ s. s ≡ structure_of graph.now) }
    ensures refuted { IfOk result (λ known. IsTrue known → IsRefuted evaluator.old.items (structure_of graph.now) sources.now order.now) }
{
    cat_eval::laws::values_apart();
    // They tell how many locations there are at most.
    let _ = graph.runs();
    let excerpt = Excerpt { sources, order };
    evaluator.refutes(alloc, graph, Part::Excerpt(excerpt))
}
