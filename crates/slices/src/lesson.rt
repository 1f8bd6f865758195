//! What is known of the executions of one event structure.

ghost use Rattle.std.specs.Prelude.{◌≡◌, ◌+◌, List, Some, IfOk, IfSome, IsTrue};
ghost use Rattle.candidates.specs.Candidates.{graph_at};
ghost use Rattle.cat_tree.specs.Tree.{Clause};
ghost use Rattle.events.specs.Structures.{structure_of};
ghost use Rattle.slices.specs.Lessons.{IsLesson};
ghost use Rattle.slices.specs.Passing.{IsForbidden};
ghost use Rattle.slices.specs.Reasons.{HasAt, IsFatal};

use crate::pair::Pair;
use crate::reason::Reason;
use crate::rivals::{Exchange, Rivals, exchanges};
use candidates::Walk;
use cat_eval::Evaluator;
use events::{EventId, Graph, SourcedStructure};
use std::alloc::{AllocError, Global};

/// How many reasons are asked at most.
const MOST_REASONS: usize = 128;

/// The reasons that were asked, for executions of one structure: those that are known to be fatal, and the others.
pub(crate) struct Lesson {
    pub(crate) structure: SourcedStructure,
    pub(crate) fatal: Vec<Reason>,
    others: Vec<Reason>,
    exchanges: Vec<Exchange>,
}

// A function of its own: whoever holds one drops it by a call.
impl Drop for Lesson {
    fn drop(self) {
        let Lesson {
            structure: _,
            fatal: _,
            others: _,
            exchanges: _,
        } = self;
    }
}

/// A block of executions of which it is known that none is allowed: its depth, and the number behind it.
#[derive(Clone, Copy)]
pub(crate) struct Forbidden {
    pub(crate) depth: usize,
    pub(crate) end: u64,
}

/// The execution at this number, which the walk found last, alone.
fn alone(walk: &Walk<'_>, number: u64) -> Forbidden
    requires { walk.now.next ≡ number + 1 }
    ensures { result.end ≡ number + 1 }
{
    // The number behind it is no larger than the end of any block.
    let depth = walk.depths();
    let _ = walk.end_of(depth);
    Forbidden {
        depth,
        end: number + 1,
    }
}

/// The widest block around the execution that the walk found last in which each has a reason that it has itself, if that is wider than another forbidden one.
fn widen(walk: &Walk<'_>, reason: Reason, other: Forbidden) -> Forbidden
    requires { HasAt reason walk.now.shown }
    ensures { (items : List Clause) → IsFatal items (structure_of walk.now.shown) reason → IsForbidden items walk.now other.end → IsForbidden items walk.now result.end }
{
    let mut widest = other;
    // They tell that what is read from is an event.
    let _ = walk.graph().runs();
    for depth in (0..other.depth).rev() {
        match walk.block(depth) {
            Some(block) if reason.is_known(block.cut) => {
                widest = Forbidden {
                    depth,
                    end: block.end,
                };
            }
            _ => return widest,
        }
    }
    widest
}

/// The widest block around the execution at this number, which the walk found last, in which each has a reason that it has itself, or another forbidden
/// one that is as wide.
fn block_with(walk: &Walk<'_>, number: u64, reason: Reason, other: Option<Forbidden>) -> Forbidden
    requires found { walk.now.next ≡ number + 1 }
    requires shown { graph_at walk.now.space number ≡ Some walk.now.shown }
    requires has { HasAt reason walk.now.shown }
    ensures { (items : List Clause) → IsFatal items (structure_of walk.now.shown) reason → IfSome other (λ f. IsForbidden items walk.now f.end) → IsForbidden items walk.now result.end }
{
    match other {
        Some(other) => widen(walk, reason, other),
        None => widen(walk, reason, alone(walk, number)),
    }
}

impl Lesson {
    /// Nothing, of executions with the events of this one.
    #[inline(never)]
    pub(crate) fn new(alloc: Global, graph: &Graph) -> Result<Lesson, AllocError>
        ensures lesson { (items : List Clause) → IfOk result (IsLesson items) }
        ensures structure { IfOk result (λ l. l.structure.structure ≡ structure_of graph.now) }
    {
        let structure = SourcedStructure::of(alloc, graph)?;
        let exchanges = exchanges(alloc, graph)?;
        Ok(Lesson {
            structure,
            fatal: Vec::new(alloc),
            others: Vec::new(alloc),
            exchanges,
        })
    }

    /// The widest block around the execution at this number, which the walk found last, in which each has a fatal reason that it has itself.
    pub(crate) fn forbidden_around(&self, walk: &Walk<'_>, number: u64) -> Option<Forbidden>
        requires found { walk.now.next ≡ number + 1 }
        requires shown { graph_at walk.now.space number ≡ Some walk.now.shown }
        requires structure { self.now.structure.structure ≡ structure_of walk.now.shown }
        ensures { (items : List Clause) → IsLesson items self.now → IfSome result (λ f. IsForbidden items walk.now f.end) }
    {
        let mut widest: Option<Forbidden> = None;
        for reason in &self.fatal {
            if reason.is_in(walk.graph()) {
                widest = Some(block_with(walk, number, *reason, widest));
            }
        }
        widest
    }

    /// Whether a reason was asked, or no more are.
    fn is_past(&self, reason: Reason) -> bool {
        self.fatal.len() + self.others.len() >= MOST_REASONS
            || self.fatal.contains(&reason)
            || self.others.contains(&reason)
    }

    /// An exchange and one of these others that read from one write, if that wasn't asked yet.
    fn unasked_rivals_of(
        &self,
        graph: &Graph,
        second: Exchange,
        others: &[Exchange],
    ) -> Option<Reason> {
        let source = second.source(graph)?;
        for first in others {
            let rivals = Reason::Rivals(Rivals {
                first: *first,
                second,
                source,
            });
            if first.reads_from(source, graph) && !self.is_past(rivals) {
                return Some(rivals);
            }
        }
        None
    }

    /// Two exchanges that read from one write, if that wasn't asked yet.
    fn unasked_rivals(&self, graph: &Graph) -> Option<Reason> {
        for (place, second) in self.exchanges.iter().enumerate() {
            let found = self.unasked_rivals_of(graph, *second, &self.exchanges[..place]);
            if found.is_some() {
                return found;
            }
        }
        None
    }

    /// Two writes one behind another in the order of a location, behind the first, if that wasn't asked yet.
    fn unasked_in(&self, location: usize, order: &[EventId]) -> Option<Reason> {
        for place in 2..order.len() {
            let pair = Reason::Pair(Pair {
                location,
                first: order[place - 1],
                second: order[place],
            });
            if !self.is_past(pair) {
                return Some(pair);
            }
        }
        None
    }

    /// Two such writes of an execution: of the last locations first, whose orders are the slowest to change.
    fn unasked_pair(&self, graph: &Graph) -> Option<Reason> {
        for location in (0..graph.co().len()).rev() {
            let found = self.unasked_in(location, graph.co()[location].writes());
            if found.is_some() {
                return found;
            }
        }
        None
    }

    /// A reason of an execution that wasn't asked yet.
    fn unasked(&self, graph: &Graph) -> Option<Reason> {
        match self.unasked_rivals(graph) {
            Some(rivals) => Some(rivals),
            None => self.unasked_pair(graph),
        }
    }

    /// Asks a reason that a forbidden execution with its events may be forbidden for, if one wasn't asked yet, and tells whether it is fatal.
    pub(crate) fn learn(
        &mut self,
        alloc: Global,
        evaluator: &mut Evaluator<'_>,
        graph: &Graph,
    ) -> Result<bool, AllocError>
        requires structure { self.old.structure.structure ≡ structure_of graph.now }
        requires relied { IfSome evaluator.old.relied (λ s. s ≡ structure_of graph.now) }
        ensures model { evaluator.new.items ≡ evaluator.old.items }
        ensures relied { IfSome evaluator.new.relied (λ s. s ≡ structure_of graph.now) }
        ensures structure { self.new.structure ≡ self.old.structure }
        ensures lesson { IsLesson evaluator.old.items self.old → IsLesson evaluator.old.items self.new }
    {
        let Some(reason) = self.unasked(graph) else {
            return Ok(false);
        };
        if reason.is_in(graph) && reason.is_fatal(alloc, evaluator, graph)? {
            self.fatal.push(reason)?;
            return Ok(true);
        }
        self.others.push(reason)?;
        Ok(false)
    }
}
