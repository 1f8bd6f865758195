//! What is found at some of the numbers of a test: the allowed executions are counted.

ghost use Rattle.std.specs.Prelude.{◌≡◌, ◌+◌, ◌-◌, ◌^◌, ◌<◌, Some, length, map, IfOk, IfSome, OnOk, MatchBool};
ghost use Rattle.candidates.specs.Candidates.{choices_of, graph_at};
ghost use Rattle.events.specs.Structures.{structure_of};
ghost use Rattle.slices.specs.Gathered.{IsKept};
ghost use Rattle.slices.specs.Parts.{IsPart, IsRange};
ghost use Rattle.slices.specs.Passing.{Knows};
ghost use Rattle.slices.specs.Slots.{slot_value};
ghost use Rattle.slices.specs.Steady.{AreSteady};
ghost use Rattle.slices.specs.Sums.{IsSum, of_state};

use crate::finding::Finding;
use crate::gathering::Gathering;
use crate::judged::{Judged, judge};
use crate::pruning::Pruner;
use crate::slot::Slot;
use crate::work::WorkRef;
use candidates::Walk;
use cat_eval::{Evaluator, Judgement};
use events::Graph;
use std::alloc::{AllocError, Global};

/// Has an evaluator rely on it that the executions from this number on, which the walk found last, have the same events, as far as that is known: up to before the number
/// that is given back. Up to before `steady` it may rely on that already.
fn rely(evaluator: &mut Evaluator<'_>, walk: &Walk<'_>, number: u64, steady: u64) -> u64
    requires found { walk.now.next ≡ number + 1 }
    requires shown { graph_at walk.now.space number ≡ Some walk.now.shown }
    requires steady { AreSteady walk.now.space number steady evaluator.old.relied }
    ensures items { evaluator.new.items ≡ evaluator.old.items }
    ensures relied { IfSome evaluator.new.relied (λ s. s ≡ structure_of walk.now.shown) }
    ensures steady { AreSteady walk.now.space number result evaluator.new.relied }
{
    if number < steady {
        return steady;
    }
    evaluator.forget_runs();
    match walk.block(0) {
        Some(block) => block.end,
        None => number,
    }
}

/// What is found at the numbers of a walk over a work's candidates from this one on, one after another. The evaluator is one of the work's model.
pub fn count(
    alloc: Global,
    work: &WorkRef,
    from: u64,
    walk: &mut Walk<'_>,
    evaluator: &mut Evaluator<'_>,
    pruner: &mut Pruner,
) -> Result<Finding, AllocError>
    requires range { IsRange work.now.test walk.old.next walk.old.to }
    requires from { walk.old.next ≡ from }
    requires space { walk.old.space ≡ choices_of work.now.test }
    requires evaluator { evaluator.old.items ≡ work.now.model.items }
    requires known { Knows (choices_of work.now.test) work.now.model.items pruner.old }
    ensures part { IfOk result (IsPart work.now.test work.now.model.items walk.old.next walk.old.to) }
    ensures evaluator { evaluator.new.items ≡ evaluator.old.items }
    ensures space { OnOk result (walk.new.space ≡ walk.old.space) }
    ensures known { OnOk result (Knows (choices_of work.now.test) work.now.model.items pruner.new) }
{
    let inner = work.work();
    prove!(inner.size() <= u64::MAX);
    let slots = inner.slots();
    let finding = Finding::nothing(alloc, work.share()?)?;
    let mut gathering = Gathering::new(alloc, finding, slots.len());
    pruner.begin(walk, from);
    let mut steady = 0;
    while let Some(number) = walk.next(alloc)? {
        steady = rely(evaluator, walk, number, steady);
        if pruner.passes(alloc, evaluator, walk, number)? {
            continue;
        }
        let Judged { judgement, open } = judge(alloc, inner, walk, evaluator, pruner)?;
        let graph = walk.graph();
        if let Some(range) = open {
            gathering.weigh_alike(alloc, slots, graph, range, &judgement)?;
            walk.pass(number + range.size());
            continue;
        }
        gathering.weigh(slots, graph, &judgement)?;
    }
    Ok(gathering.into_finding())
}

impl Gathering {
    /// Counts an execution, if it is allowed.
    fn weigh(
        &mut self,
        slots: &[Slot],
        graph: &Graph,
        judgement: &Judgement,
    ) -> Result<(), AllocError>
        requires kept { IsKept self.old }
        requires few { self.old.finding.positive + self.old.finding.negative < 2 ^ 64 - 1 }
        requires whole { length self.old.finding.places ≡ length slots.now }
        ensures kept { OnOk result (IsKept self.new) }
        ensures sum { OnOk result (MatchBool judgement.now.allowed
            (IsSum self.old.finding (of_state self.old.finding (map (slot_value graph.now) slots.now) 1 judgement.now.flags) self.new.finding)
            (self.new.finding ≡ self.old.finding)) }
    {
        if !judgement.allowed() {
            return Ok(());
        }
        self.state.show(slots, graph)?;
        self.add(1)?;
        self.finding.raise(judgement.flags())?;
        Ok(())
    }
}
