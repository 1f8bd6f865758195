//! How the values of a plan's steps go from one execution to another.

ghost use Rattle.std.specs.Prelude.{◌≡◌, ◌<◌, ◌≤◌, ◌⊎◌, ℕ, List, length, IfOk, OnOk, IsTrue, Some};
ghost use Rattle.std.specs.List.{slice_get};
ghost use Rattle.cat_eval.specs.declared.growth.Growth.TheVariants.{Grows};
ghost use Rattle.cat_eval.specs.declared.step.Step.TheVariants as steps_of;
ghost use Rattle.cat_eval.specs.Code.{planned_clause, IsPlanOf};
ghost use Rattle.cat_eval.specs.Core.{Clause};
ghost use Rattle.cat_eval.specs.Growth.{IsAtMost, growth_at as growth_in, GoesBy, AreGoing, IsLonger, AreOpen, AreTold, HasRoom, GroupGoes, AreGrown};

use crate::growth::{Change, Growth, of_infix, of_named, of_sign};
use crate::plan::PlannedItem;
use crate::step::Step;
use cat_tree::Item;
use std::alloc::{AllocError, Global};

/// How the value at a place goes.
pub fn growth_at(growths: &[Growth], place: usize) -> Growth
    ensures { result ≡ growth_in growths.now place }
{
    match growths.get(place) {
        Some(growth) => *growth,
        None => Growth::Unknown,
    }
}

// How the value of a step goes, where those before it go so, and the relations that rounds fill as is said of them.
fn growth_of(step: Step, before: &[Growth], rounds: Growth, change: Change) -> Growth
    requires { IsAtMost Grows rounds }
    ensures goes { GoesBy change before.now (length before.now) step result }
    ensures rounds { step ≡ steps_of.Unknown → result ≡ rounds }
{
    match step {
        Step::Unknown => rounds,
        Step::Known(named) => of_named(named, change),
        Step::EmptyRelation | Step::EmptySet | Step::Universe => Growth::Stays,
        Step::Signed(sign, operand) => of_sign(sign, growth_at(before, operand)),
        Step::Joined(operator, left, right) => {
            of_infix(operator, growth_at(before, left), growth_at(before, right))
        }
        Step::Same(operand) => growth_at(before, operand),
    }
}

// Adds how the values of the steps go, up to a place.
fn grow_steps(
    growths: &mut Vec<Growth>,
    steps: &[Step],
    to: usize,
    rounds: Growth,
    change: Change,
) -> Result<(), AllocError>
    requires rounds { IsAtMost Grows rounds }
    requires order { length growths.old.items ≤ to }
    requires inside { to ≤ length steps.now }
    requires going { AreGoing change steps.now growths.old.items }
    ensures long { OnOk result (length growths.new.items ≡ to) }
    ensures going { OnOk result (AreGoing change steps.now growths.new.items) }
    ensures more { OnOk result (IsLonger growths.old.items growths.new.items) }
    ensures rounds { OnOk result ((k : ℕ) → length growths.old.items ≤ k → k < to → slice_get steps.now k ≡ Some steps_of.Unknown → growth_in growths.new.items k ≡ rounds) }
{
    for place in growths.len()..to {
        let growth = growth_of(steps[place], growths, rounds, change);
        growths.push(growth)?;
    }
    Ok(())
}

// Do the last values lose nothing?
fn are_told(growths: &[Growth], count: usize) -> bool
    requires { count ≤ length growths.now }
    ensures { IsTrue result → AreTold growths.now (length growths.now) count }
{
    for place in growths.len() - count..growths.len() {
        if !growth_at(growths, place).loses_nothing() {
            return false;
        }
    }
    true
}

// Adds how the values of a `let rec` go, the last of which are so many.
fn grow_group(
    growths: &mut Vec<Growth>,
    steps: &[Step],
    to: usize,
    count: usize,
    change: Change,
) -> Result<(), AllocError>
    requires order { length growths.old.items ≤ to }
    requires inside { to ≤ length steps.now }
    requires count { count ≤ to }
    requires going { AreGoing change steps.now growths.old.items }
    ensures long { OnOk result (length growths.new.items ≡ to) }
    ensures going { OnOk result (AreGoing change steps.now growths.new.items) }
    ensures more { OnOk result (IsLonger growths.old.items growths.new.items) }
    ensures group { OnOk result (AreOpen steps.now growths.new.items (length growths.old.items) to ⊎ AreTold growths.new.items to count) }
{
    let before = growths.len();
    grow_steps(growths, steps, to, Growth::Grows, change)?;
    if are_told(growths, count) {
        return Ok(());
    }
    growths.truncate(before);
    grow_steps(growths, steps, to, Growth::Unknown, change)
}

// Adds how the values of an item go.
fn grow_item<'m>(
    growths: &mut Vec<Growth>,
    steps: &[Step],
    item: &PlannedItem<'m>,
    change: Change,
) -> Result<(), AllocError>
    requires order { length growths.old.items ≤ item.now.to }
    requires inside { item.now.to ≤ length steps.now }
    requires room { HasRoom item.now.to (planned_clause item.now) }
    requires going { AreGoing change steps.now growths.old.items }
    ensures long { OnOk result (length growths.new.items ≡ item.now.to) }
    ensures going { OnOk result (AreGoing change steps.now growths.new.items) }
    ensures more { OnOk result (IsLonger growths.old.items growths.new.items) }
    ensures group { OnOk result (GroupGoes steps.now growths.new.items (length growths.old.items) item.now.to (planned_clause item.now)) }
{
    match item.item {
        Item::LetRec(bindings) => grow_group(growths, steps, item.to, bindings.len(), change),
        _ => grow_steps(growths, steps, item.to, Growth::Unknown, change),
    }
}

/// How the values of a plan's steps go where an execution so becomes another.
pub fn grow<'m>(
    alloc: Global,
    steps: &[Step],
    items: &[PlannedItem<'m>],
    change: Change,
) -> Result<Vec<Growth>, AllocError>
    requires { (cores : List Clause) × IsPlanOf cores steps.now items.now }
    ensures { IfOk result (λ gs. AreGrown change steps.now items.now gs.items) }
{
    let mut growths = Vec::with_capacity(alloc, steps.len())?;
    for item in items {
        grow_item(&mut growths, steps, item, change)?;
    }
    Ok(growths)
}
