//! What an execution tells, as far as it is known, of all that go on from it.

ghost use Rattle.std.specs.Prelude.{◌≤◌, length, IfSome, IsTrue};
ghost use Rattle.events.specs.Executions.{GraphValue};
ghost use Rattle.events.specs.Extends.{Extends};
ghost use Rattle.cat_eval.specs.Judging.{Allowed};
ghost use Rattle.cat_eval.specs.Code.{planned_clause};
ghost use Rattle.cat_eval.specs.Extents.{AreAbsent};
ghost use Rattle.cat_eval.specs.Growth.{AreGrown, IsTelling};
ghost use Rattle.cat_eval.specs.declared.growth.Change.TheVariants.{Extended};
ghost use Rattle.cat_eval.specs.Machine.{clauses_of, IsCode, Keeps, HasMade};

use crate::growing::growth_at;
use crate::growth::Growth;
use crate::judging::is_settled;
use crate::keeping::Kept;
use crate::machine::{Code, Machine};
use crate::plan::PlannedItem;
use crate::value::Value;
use cat_tree::Item;
use events::{GraphView, laws};

/// Can the item only come to fail? So can a check without a flag and without `~`, whose value loses nothing.
pub(crate) fn tells<'m>(growths: &[Growth], item: &PlannedItem<'m>) -> bool
    ensures { IsTrue result → IsTelling growths.now item.now.to (planned_clause item.now) }
{
    match item.item {
        Item::Check(check) => {
            !check.flag
                && !check.negated
                && growth_at(growths, item.to.saturating_sub(1)).loses_nothing()
        }
        _ => false,
    }
}

/// So many of the first items that each one behind them can refute nothing.
pub fn telling<'m>(growths: &[Growth], items: &[PlannedItem<'m>]) -> usize
    ensures { result ≤ length items.now }
{
    let mut count = 0;
    for (number, item) in items.iter().enumerate() {
        if tells(growths, item) {
            count = number + 1;
        }
    }
    count
}

impl Machine<'_, '_, '_> {
    // The number of an item that refutes the execution: the model allows none that goes on from it. The first items are looked at, up to such a
    // one. So many values are made.
    fn refutes(
        &self,
        growths: &[Growth],
        count: usize,
        values: &mut [Value],
        made: &mut usize,
    ) -> Option<usize>
        requires code { IsCode self.now.code }
        requires absent { AreAbsent self.now.code.absent.now self.now.view.now }
        requires grown { AreGrown Extended self.now.code.steps.now self.now.code.items.now growths.now }
        requires count { count ≤ length self.now.code.items.now }
        requires machine { HasMade self.now values.old made.old }
        ensures machine { HasMade self.now values.new made.new }
        ensures refuted { IfSome result (λ _. (h : GraphValue) → Extends self.now.view.now h → ¬ Allowed (clauses_of self.now.code) h) }
    {
        laws::extension();
        laws::opening();
        for number in 0..count {
            let item = &self.code.items[number];
            if is_settled(item, *made) {
                continue;
            }
            let weighed = self.weigh(values, made, item);
            if !weighed.permits && tells(growths, item) {
                return Some(number);
            }
        }
        None
    }
}

/// The number of an item that refutes an execution as far as it is known: the model allows none that goes on from it. The first items are looked at, up to
/// such a one. Values that are kept are not made again, and those that are made are kept.
pub(crate) fn refutes_by(
    view: &GraphView,
    code: &Code<'_, '_>,
    growths: &[Growth],
    count: usize,
    kept: &mut Kept,
    values: &mut [Value],
) -> Option<usize>
    requires code { IsCode code.now }
    requires absent { AreAbsent code.now.absent.now view.now }
    requires grown { AreGrown Extended code.now.steps.now code.now.items.now growths.now }
    requires count { count ≤ length code.now.items.now }
    requires kept { Keeps view.now code.now kept.old values.old }
    ensures kept { Keeps view.now code.now kept.new values.new }
    ensures refuted { IfSome result (λ _. (h : GraphValue) → Extends view.now h → ¬ Allowed (clauses_of code.now) h) }
{
    let machine = Machine {
        view,
        code: *code,
        kept: *kept,
    };
    let mut made = 0;
    let refuted = machine.refutes(growths, count, values, &mut made);
    *kept = kept.with(made);
    refuted
}
