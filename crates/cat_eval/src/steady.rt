//! What a model says of an execution, told by what it says of one that this is within.

ghost use Rattle.std.specs.Prelude.{◌≡◌, IfOk, IsTrue, List};
ghost use Rattle.std.specs.List.{All};
ghost use Rattle.cat_eval.specs.Code.{planned_clause, IsPlanOf};
ghost use Rattle.cat_eval.specs.Core.{Clause};
ghost use Rattle.cat_eval.specs.Growth.{IsSteadyItem, IsSteady};

use crate::growing::{grow, growth_at};
use crate::growth::{Change, Growth};
use crate::plan::PlannedItem;
use crate::refuting::tells;
use crate::step::Step;
use cat_tree::Item;
use std::alloc::{AllocError, Global};

// Does the item say of an execution what it says of an allowed one that this is within? So does a check whose value stays, or that can only
// come to fail.
fn is_steady_item<'m>(growths: &[Growth], item: &PlannedItem<'m>) -> bool
    ensures { IsTrue result → IsSteadyItem growths.now item.now.to (planned_clause item.now) }
{
    match item.item {
        Item::Check(_) => {
            growth_at(growths, item.to.saturating_sub(1)).stays() || tells(growths, item)
        }
        _ => true,
    }
}

// Does each of the items?
fn are_steady<'m>(growths: &[Growth], items: &[PlannedItem<'m>]) -> bool
    ensures { IsTrue result → All (λ p. IsSteadyItem growths.now p.to (planned_clause p)) items.now }
{
    for item in items {
        if !is_steady_item(growths, item) {
            return false;
        }
    }
    true
}

/// Is it known of a plan that what is said of an allowed execution is said of all that are within it?
pub fn is_steady<'m>(
    alloc: Global,
    steps: &[Step],
    items: &[PlannedItem<'m>],
) -> Result<bool, AllocError>
    requires { (cores : List Clause) × IsPlanOf cores steps.now items.now }
    ensures { IfOk result (λ known. IsTrue known → IsSteady steps.now items.now) }
{
    let growths = grow(alloc, steps, items, Change::Opened)?;
    Ok(are_steady(&growths, items))
}
