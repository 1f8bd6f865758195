//! Evaluators without their models: put aside, and taken up again.

ghost use Rattle.std.specs.Prelude.{◌≡◌, None, length, map, IfOk};
ghost use Rattle.cat_tree.specs.Tree.{clause_of};
ghost use Rattle.cat_eval.specs.Code.{planned_clause};
ghost use Rattle.cat_eval.specs.Prepared.{IsReadyFor};
ghost use Rattle.cat_eval.specs.Working.{steps_of_item};

use crate::choice::Choice;
use crate::evaluator::Evaluator;
use crate::plan::PlannedItem;
use crate::workings::ItemSteps;
use cat_model::Model;
use cat_tree::Item;
use std::alloc::{AllocError, Global};

/// What an evaluator has made ready and what it keeps, without the model. It serves any model of the same items.
pub struct Prepared {
    pub(crate) choice: Choice,
}

// A function of its own: whoever holds one drops it by a call.
impl Drop for Prepared {
    fn drop(self) {
        let Prepared { choice: _ } = self;
    }
}

/// Where the steps of items are.
pub(crate) fn item_steps<'m>(
    alloc: Global,
    items: &[PlannedItem<'m>],
) -> Result<Vec<ItemSteps>, AllocError>
    ensures { IfOk result (λ v. v.items ≡ map steps_of_item items.now) }
{
    let mut item_steps = Vec::with_capacity(alloc, items.len())?;
    for item in items {
        item_steps.push(ItemSteps {
            start: item.start,
            from: item.from,
            to: item.to,
        })?;
    }
    Ok(item_steps)
}

/// Items with their steps.
fn planned<'m>(
    alloc: Global,
    items: &'m [Item],
    item_steps: &[ItemSteps],
) -> Result<Vec<PlannedItem<'m>>, AllocError>
    requires { length items.now ≡ length item_steps.now }
    ensures clauses { IfOk result (λ v. map planned_clause v.items ≡ map clause_of items.entry.now) }
    ensures item_steps { IfOk result (λ v. map steps_of_item v.items ≡ item_steps.now) }
{
    let mut planned = Vec::with_capacity(alloc, items.len())?;
    for (number, item) in items.iter().enumerate() {
        let ItemSteps { start, from, to } = item_steps[number];
        planned.push(PlannedItem {
            item,
            start,
            from,
            to,
        })?;
    }
    Ok(planned)
}

impl Prepared {
    /// The evaluator again, of a model of the same items. The next execution may have any runs.
    pub fn with_model<'m>(
        self,
        alloc: Global,
        model: &'m Model,
    ) -> Result<Evaluator<'m>, AllocError>
        requires { IsReadyFor model.now.items self }
        ensures items { IfOk result (λ e. e.items ≡ model.entry.now.items) }
        ensures relied { IfOk result (λ e. e.relied ≡ None) }
    {
        let items = planned(alloc, model.items(), &self.choice.used.item_steps)?;
        let Prepared { choice } = self;
        let Choice {
            used,
            others,
            serves: _,
        } = choice;
        Ok(Evaluator {
            items,
            relies: false,
            choice: Choice {
                used,
                others,
                serves: false,
            },
        })
    }
}
