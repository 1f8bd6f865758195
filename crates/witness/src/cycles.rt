//! Shortest cycles of relations.

ghost use Rattle.std.specs.Prelude.{◌≡◌, ℕ, ◌+◌, ◌<◌, List, length, IfOk, MatchOption};
ghost use Rattle.relations.specs.Relation.{In, IsCanonical};
ghost use Rattle.relations.specs.Algebra.{IsAcyclic, IsIrreflexive};
ghost use Rattle.witness.specs.Cycles.{Leads, IsCycle, IsShortestCycle, IsPower, ArePowers};

use relations::Rel;
use std::alloc::{AllocError, Global};

/// An event that the relation has related to itself.
pub fn returning(relation: &Rel) -> Option<usize>
    ensures { MatchOption result (IsIrreflexive (In relation.now)) (λ i. In relation.now i i) }
{
    for event in 0..relation.count() {
        if relation.contains(event, event) {
            return Some(event);
        }
    }
    None
}

/// An event to which the first relation leads from an event, and from which the second leads to another.
fn between(first: &Rel, second: &Rel, from: usize, to: usize) -> Option<usize>
    requires count { second.now.count ≡ first.now.count }
    requires from { from < first.now.count }
    requires to { to < first.now.count }
    ensures { MatchOption result ((m : ℕ) → In first.now from m → ¬ In second.now m to) (λ m. In first.now from m × In second.now m to) }
{
    for middle in 0..first.count() {
        if first.contains(from, middle) && second.contains(middle, to) {
            return Some(middle);
        }
    }
    None
}

/// A cycle through an event, of one event more than there are powers.
fn cycle_through(
    alloc: Global,
    relation: &Rel,
    powers: &[Rel],
    event: usize,
) -> Result<Vec<usize>, AllocError>
    requires canonical { IsCanonical relation.now }
    requires powers { ArePowers relation.now 0 powers.now }
    requires cycle { (ms : List ℕ) × (length ms ≡ length powers.now) × Leads (In relation.now) event ms event }
    ensures cycle { IfOk result (λ v. IsCycle (In relation.now) v.items) }
    ensures length { IfOk result (λ v. length v.items ≡ length powers.now + 1) }
{
    let mut cycle = Vec::new(alloc);
    cycle.push(event)?;
    let mut last = event;
    for step in 0..powers.len() {
        let power = &powers[powers.len() - 1 - step];
        match between(relation, power, last, event) {
            Some(next) => {
                cycle.push(next)?;
                last = next;
            }
            None => unreachable!(),
        }
    }
    Ok(cycle)
}

/// A shortest cycle of the relation, or none where it has none. All events are searched from at once, step by step: in how many steps it can be
/// come from each to each.
pub fn shortest_cycle(alloc: Global, relation: &Rel) -> Result<Option<Vec<usize>>, AllocError>
    ensures { IfOk result (λ cycle. MatchOption cycle (IsAcyclic (In relation.now)) (λ v. IsShortestCycle (In relation.now) v.items)) }
{
    let mut powers = Vec::new(alloc);
    let mut power = relation.copy();
    for _step in 0..relation.count() {
        if let Some(event) = returning(&power) {
            return Ok(Some(cycle_through(alloc, relation, &powers, event)?));
        }
        let longer = relation.seq(&power);
        powers.push(power)?;
        power = longer;
    }
    Ok(None)
}
