//! Finds why a model forbids an execution.

ghost use Rattle.std.specs.Prelude.{◌≡◌, ◌<◌, ℕ, false, IfOk, MatchOption};
ghost use Rattle.relations.specs.Algebra.{IsEmpty};
ghost use Rattle.relations.specs.Events.{Has};
ghost use Rattle.relations.specs.Relation.{In};
ghost use Rattle.cat_eval.specs.Judging.{Passes, Unless};
ghost use Rattle.cat_eval.specs.Steps.{sort_of};
ghost use Rattle.cat_eval.specs.declared.value.Value.TheVariants.{Events, Pairs};
ghost use Rattle.cat_model.specs.Scopes.{Takes};
ghost use Rattle.cat_tree.specs.Tree.{clause_of};
ghost use Rattle.cat_tree.specs.declared.tree.CheckKind.TheVariants.{Empty};
ghost use Rattle.witness.specs.Reasons.{Explains, FailsFirst, IsEvidence, IsFailing, IsWhy, Permit};

use crate::cycles::{returning, shortest_cycle};
use crate::reasons::{Evidence, Reason};
use cat_eval::{Outcome, Value, account_for};
use cat_model::Model;
use cat_tree::{Check, CheckKind, Item};
use events::{Graph, GraphView};
use relations::{Rel, Set};
use std::alloc::{AllocError, Global};
use wb_text::Name;

/// An event of a set.
fn member(set: &Set) -> Option<usize>
    ensures { MatchOption result ((i : ℕ) → ¬ Has set.now i) (λ i. Has set.now i) }
{
    for event in 0..set.count() {
        if set.contains(event) {
            return Some(event);
        }
    }
    None
}

/// An event to which a relation leads from one.
fn target(relation: &Rel, from: usize) -> Option<usize>
    requires { from < relation.now.count }
    ensures { MatchOption result ((j : ℕ) → ¬ In relation.now from j) (λ j. In relation.now from j) }
{
    for to in 0..relation.count() {
        if relation.contains(from, to) {
            return Some(to);
        }
    }
    None
}

/// A pair of a relation.
fn pair(relation: &Rel) -> Option<(usize, usize)>
    ensures { MatchOption result (IsEmpty (In relation.now)) (λ p. In relation.now p.0 p.1) }
{
    for from in 0..relation.count() {
        if let Some(to) = target(relation, from) {
            return Some((from, to));
        }
    }
    None
}

/// What shows that a set isn't empty.
fn of_set(set: &Set) -> Evidence
    requires { ¬ ((i : ℕ) → ¬ Has set.now i) }
    ensures { IsEvidence false Empty (Events set.now) result }
{
    match member(set) {
        Some(event) => Evidence::Member(event),
        None => unreachable!(),
    }
}

/// What shows that a relation fails a check.
fn of_relation(alloc: Global, kind: CheckKind, relation: &Rel) -> Result<Evidence, AllocError>
    requires { ¬ Passes kind (Pairs relation.now) }
    ensures { IfOk result (IsEvidence false kind (Pairs relation.now)) }
{
    match kind {
        CheckKind::Acyclic => match shortest_cycle(alloc, relation)? {
            Some(cycle) => Ok(Evidence::Cycle(cycle)),
            None => unreachable!(),
        },
        CheckKind::Irreflexive => match returning(relation) {
            Some(event) => Ok(Evidence::Itself(event)),
            None => unreachable!(),
        },
        CheckKind::Empty => match pair(relation) {
            Some((from, to)) => Ok(Evidence::Pair(from, to)),
            None => unreachable!(),
        },
    }
}

/// What shows that a value fails a check.
fn evidence(alloc: Global, check: &Check, value: &Value) -> Result<Evidence, AllocError>
    requires takes { Takes check.now.kind (sort_of value.now) }
    requires fails { ¬ Unless check.now.negated (Passes check.now.kind value.now) }
    ensures { IfOk result (IsEvidence check.now.negated check.now.kind value.now) }
{
    if check.negated {
        return Ok(Evidence::Denied);
    }
    match value {
        Value::Events(set) => Ok(of_set(set)),
        Value::Pairs(relation) => of_relation(alloc, check.kind, relation),
    }
}

/// A second name that is equal, if there is one.
fn copied(name: &Option<Name>) -> Result<Option<Name>, AllocError>
    ensures { IfOk result (λ n. n ≡ name.now) }
{
    match name {
        Some(name) => Ok(Some(name.copy()?)),
        None => Ok(None),
    }
}

/// The reason that an item gives which comes to this outcome.
fn explain(
    alloc: Global,
    number: usize,
    item: &Item,
    outcome: &Outcome,
) -> Result<Reason, AllocError>
    requires { IsFailing (clause_of item.now) outcome.now }
    ensures { IfOk result (Explains number (clause_of item.now) outcome.now) }
{
    match item {
        Item::Check(check) => match &outcome.checked {
            Some(value) => Ok(Reason {
                number,
                negated: check.negated,
                kind: check.kind,
                name: copied(&check.name)?,
                evidence: evidence(alloc, check, value)?,
            }),
            None => unreachable!(),
        },
        _ => unreachable!(),
    }
}

/// The place of the first outcome that forbids something.
fn first_failing(outcomes: &[Outcome]) -> Option<usize>
    ensures { MatchOption result (Permit outcomes.now) (λ k. FailsFirst k outcomes.now) }
{
    for (number, outcome) in outcomes.iter().enumerate() {
        if !outcome.permits {
            return Some(number);
        }
    }
    None
}

/// The reason, where the execution is seen through a view.
fn reason_in(alloc: Global, model: &Model, view: &GraphView) -> Result<Option<Reason>, AllocError>
    ensures { IfOk result (IsWhy model.now.items view.now) }
{
    let account = account_for(alloc, model, view)?;
    if account.judgement.allowed() {
        return Ok(None);
    }
    match first_failing(&account.outcomes) {
        Some(number) => {
            let item = &model.items()[number];
            let outcome = &account.outcomes[number];
            Ok(Some(explain(alloc, number, item, outcome)?))
        }
        None => unreachable!(),
    }
}

/// Why a model forbids an execution: its first check without a flag that doesn't hold, and what shows it. None where the model allows it.
pub fn reason(alloc: Global, model: &Model, graph: &Graph) -> Result<Option<Reason>, AllocError>
    ensures { IfOk result (IsWhy model.now.items graph.now) }
{
    let view = GraphView::of(alloc, graph)?;
    reason_in(alloc, model, &view)
}
