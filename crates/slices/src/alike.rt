//! Executions one behind another that differ in their orders alone, counted together where the model doesn't look at them.

ghost use Rattle.std.specs.Prelude.{◌≡◌, ◌+◌, ◌-◌, ◌≤◌, ◌<◌, ◌^◌, [], length, Some, IfSome, OnOk, MatchBool};
ghost use Rattle.candidates.specs.Alike.{AreAlike};
ghost use Rattle.candidates.specs.Candidates.{graph_at};
ghost use Rattle.cat_eval.specs.Orderless.{IsOrderless};
ghost use Rattle.events.specs.Executions.{GraphValue};
ghost use Rattle.listings.specs.Lists.{product_by};
ghost use Rattle.slices.specs.Alike.{AreFew, of_ways};
ghost use Rattle.slices.specs.Gathered.{IsKept};
ghost use Rattle.slices.specs.Sums.{IsSum};
ghost use Rattle.slices.specs.Ways.{size_of_ways, ways_shown};

use crate::gathering::Gathering;
use crate::slot::Slot;
use crate::ways::{Ways, choose, ways_of};
use crate::work::Work;
use candidates::{OpenOrders, Walk};
use cat_eval::Judgement;
use events::Graph;
use std::alloc::{AllocError, Global};

/// What is open of the orders from the execution on that the walk found last, if more than that execution is, and the work's model doesn't
/// look at the orders.
pub(crate) fn alike_behind(work: &Work, walk: &Walk<'_>) -> Option<OpenOrders>
    ensures orderless { IfSome result (λ _. IsOrderless work.now.model.items) }
    ensures alike { (x : GraphValue) → graph_at walk.now.space (walk.now.next - 1) ≡ Some x → IfSome result (AreAlike walk.now.space (walk.now.next - 1)) }
    ensures within { IfSome result (λ o. walk.now.next - 1 + o.size ≤ walk.now.to) }
{
    if !work.is_orderless() {
        return None;
    }
    match walk.open_orders() {
        Some(range) if range.size() > 1 => Some(range),
        _ => None,
    }
}

impl Gathering {
    /// Counts the final states of some orders of an execution: by the writes that stand last in them.
    fn add_ways(
        &mut self,
        slots: &[Slot],
        graph: &Graph,
        ways: &[Ways<'_>],
    ) -> Result<(), AllocError>
        requires kept { IsKept self.old }
        requires whole { length self.old.finding.places ≡ length slots.now }
        requires ways { AreFew ways.now }
        requires few { self.old.finding.positive + self.old.finding.negative + product_by size_of_ways ways.now < 2 ^ 64 }
        ensures kept { OnOk result (IsKept self.new) }
        ensures sum { OnOk result (IsSum self.old.finding (of_ways self.old.finding graph.now slots.now ways.now []) self.new.finding) }
    {
        let mut number = 0;
        while let Some(times) = choose(ways, number, &mut self.lasts)? {
            self.state.show_by(slots, graph, &self.lasts)?;
            self.add(times)?;
            number += 1;
        }
        Ok(())
    }

    /// Counts an execution, and with it those that differ from it in their orders alone, where these are open, if it is allowed.
    pub(crate) fn weigh_alike(
        &mut self,
        alloc: Global,
        slots: &[Slot],
        graph: &Graph,
        range: OpenOrders,
        judgement: &Judgement,
    ) -> Result<(), AllocError>
        requires kept { IsKept self.old }
        requires whole { length self.old.finding.places ≡ length slots.now }
        requires ways { AreFew (ways_shown slots.now range graph.now) }
        requires few { self.old.finding.positive + self.old.finding.negative + product_by size_of_ways (ways_shown slots.now range graph.now) < 2 ^ 64 }
        ensures kept { OnOk result (IsKept self.new) }
        ensures sum { OnOk result (MatchBool judgement.now.allowed
            (IsSum self.old.finding (of_ways self.old.finding graph.now slots.now (ways_shown slots.now range graph.now) judgement.now.flags) self.new.finding)
            (self.new.finding ≡ self.old.finding)) }
    {
        if !judgement.allowed() {
            return Ok(());
        }
        let ways = ways_of(alloc, slots, graph, range)?;
        self.add_ways(slots, graph, &ways)?;
        self.finding.raise(judgement.flags())?;
        Ok(())
    }
}
