//! Denials: which names stand in an expression once calls are replaced, and which of them under a complement or to the right
//! of a difference. Nothing here recurses: loops go over the nodes.

ghost use Rattle.std.specs.Prelude.{◌≡◌, ◌∷◌, ◌++◌, ◌↔◌, ◌⊎◌, ◌<◌, ◌≤◌, [], ℕ, List, false, true, map, reverse, length, get_or, IfOk, OnOk, MatchOption};
ghost use Rattle.std.specs.List.{Contains};
ghost use Rattle.cat_tree.specs.Terms.{Term, latest as latest_of, earlier, leaf_of, left_by};
ghost use Rattle.cat_tree.specs.Tree.{term_of, bound_of};
ghost use Rattle.cat_model.specs.Denials.{Mark, Marking, marks, grouped, denied_in, applied_marks};
ghost use Rattle.cat_model.specs.Lookups.{held_in};
ghost use Rattle.cat_model.specs.Marked.{IsMarked, FitMarks, Traced, AreTraced, Composes, IsSeen, AreListed, IsDeniedName, trace_if, traces_applied, traces_joined, IsNamed, IsOuter};
ghost use Rattle.cat_model.specs.declared.denials.Trace.{Trace as Step};

use crate::places::{each, place_of};
use crate::scope::{Held, Scope};
use cat_tree::{Binding, Expression, Infix, Leaf, Node, Sign};
use std::alloc::{AllocError, Global};
use wb_text::Name;

/// The place of a parameter that stands in a text, and whether it is denied there.
#[derive(Clone, Copy)]
pub struct Trace {
    pub place: usize,
    pub denied: bool,
}

/// How many parameters a function has, and which of them stand in its body, in reading order.
#[derive(Drop)]
pub struct Marked {
    pub count: usize,
    pub traces: Vec<Trace>,
}

/// Traces, each listed once, and at each place whether it is listed as allowed, and as denied.
#[derive(Drop)]
pub struct Once {
    pub listed: Vec<Trace>,
    pub allowed: Vec<bool>,
    pub denied: Vec<bool>,
}

/// A trace, denied if so.
fn denied_if(denied: bool, trace: Trace) -> Trace
    ensures { result ≡ trace_if denied trace }
{
    Trace {
        place: trace.place,
        denied: denied || trace.denied,
    }
}

/// Denies what stands in a text.
fn deny(traces: &mut Vec<Trace>)
    ensures { traces.new.items ≡ map (trace_if true) traces.old.items }
{
    for trace in traces.iter_mut() {
        *trace = denied_if(true, *trace);
    }
}

/// Notes that a place was seen, and tells whether it had been.
fn see(places: &mut Vec<bool>, place: usize) -> bool
    ensures known { result ≡ get_or places.old.items place false }
    ensures noted { (i : ℕ) → get_or places.new.items i false ≡ true → (i ≡ place) ⊎ (get_or places.old.items i false ≡ true) }
{
    if place < places.len() {
        let known = places[place];
        places[place] = true;
        known
    } else {
        false
    }
}

/// Notes a trace, and tells whether it had been.
fn note(once: &mut Once, trace: Trace) -> bool
    ensures listed { once.new.listed ≡ once.old.listed }
    ensures known { result ≡ true → IsSeen once.old trace }
    ensures noted { (q : Step) → IsSeen once.new q → (trace ≡ q) ⊎ IsSeen once.old q }
{
    if trace.denied {
        return see(&mut once.denied, trace.place);
    }
    see(&mut once.allowed, trace.place)
}

/// Adds a trace, unless it is listed.
fn add(once: &mut Once, trace: Trace) -> Result<(), AllocError>
    requires { AreListed once.old }
    ensures listed { OnOk result (AreListed once.new) }
    ensures added { OnOk result ((q : Step) → Contains once.new.listed.items q ↔ (Contains once.old.listed.items q ⊎ (trace ≡ q))) }
{
    if note(once, trace) {
        return Ok(());
    }
    once.listed.push(trace)?;
    Ok(())
}

/// Nothing is listed.
fn nothing_listed(alloc: Global, count: usize) -> Result<Once, AllocError>
    ensures { IfOk result (λ o. AreListed o × (o.listed.items ≡ [])) }
{
    let mut allowed = Vec::new(alloc);
    allowed.resize(count, false)?;
    let mut denied = Vec::new(alloc);
    denied.resize(count, false)?;
    Ok(Once {
        listed: Vec::new(alloc),
        allowed,
        denied,
    })
}

/// Adds what stands in an argument, once each, where its parameter stands so.
fn add_inner(once: &mut Once, denied: bool, argument: &[Trace]) -> Result<(), AllocError>
    requires { AreListed once.old }
    ensures listed { OnOk result (AreListed once.new) }
    ensures added { OnOk result ((q : Step) → Contains once.new.listed.items q ↔ (Contains once.old.listed.items q ⊎ Contains (map (trace_if denied) argument.now) q)) }
{
    for trace in argument {
        add(once, denied_if(denied, *trace))?;
    }
    Ok(())
}

/// Adds what stands in the argument of a trace of the callee, where there is one.
fn add_argument(once: &mut Once, trace: Trace, arguments: &[Vec<Trace>]) -> Result<(), AllocError>
    requires { AreListed once.old }
    ensures listed { OnOk result (AreListed once.new) }
    ensures added { OnOk result ((q : Step) → Contains once.new.listed.items q ↔ (Contains once.old.listed.items q ⊎ Contains (map (trace_if trace.denied) (get_or (map (λ a. a.items) arguments.now) trace.place [])) q)) }
{
    match arguments.get(trace.place) {
        Some(argument) => add_inner(once, trace.denied, argument),
        None => Ok(()),
    }
}

/// Each trace once, where it first stands.
fn distinct(alloc: Global, count: usize, traces: &[Trace]) -> Result<Vec<Trace>, AllocError>
    ensures { IfOk result (λ v. (q : Step) → Contains v.items q ↔ Contains traces.now q) }
{
    let mut once = nothing_listed(alloc, count)?;
    for trace in traces {
        add(&mut once, *trace)?;
    }
    Ok(once.listed)
}

/// What stands in a call: of the arguments, what stands where their parameters stand in the body.
fn compose(
    alloc: Global,
    count: usize,
    traces: &[Trace],
    arguments: &[Vec<Trace>],
) -> Result<Vec<Trace>, AllocError>
    ensures { IfOk result (λ v. (q : Step) → Contains v.items q ↔ Composes traces.now (map (λ a. a.items) arguments.now) q) }
{
    let mut once = nothing_listed(alloc, count)?;
    for trace in traces {
        add_argument(&mut once, *trace, arguments)?;
    }
    Ok(once.listed)
}

/// What stands in a call of a function with this summary: nothing where arguments are missing.
fn trace_body(
    alloc: Global,
    count: usize,
    marked: &Marked,
    arguments: &[Vec<Trace>],
) -> Result<Vec<Trace>, AllocError>
    ensures { IfOk result (λ v. (q : Step) → Contains v.items q ↔ ((marked.now.count ≤ length arguments.now) × Composes marked.now.traces.items (map (λ a. a.items) arguments.now) q)) }
{
    if arguments.len() < marked.count {
        return Ok(Vec::new(alloc));
    }
    compose(alloc, count, &marked.traces, arguments)
}

/// What stands in what a name stands for that is none of the tracked ones.
fn trace_outer<'a>(
    alloc: Global,
    scope: &Scope<'a>,
    count: usize,
    name: &Name,
    arguments: &[Vec<Trace>],
) -> Result<Vec<Trace>, AllocError>
    ensures { IfOk result (λ v. IsOuter (held_in scope.now.names.items name.now) (map (λ a. a.items) arguments.now) v.items) }
{
    match scope.held(name) {
        Some(Held::Function(summary)) => trace_body(alloc, count, &summary.marked, arguments),
        Some(Held::Value(_)) => Ok(Vec::new(alloc)),
        None => Ok(Vec::new(alloc)),
    }
}

/// One name that stands for itself.
fn trace_itself(alloc: Global, place: usize) -> Result<Vec<Trace>, AllocError>
    ensures { IfOk result (λ v. v.items ≡ record { place = place; denied = false } ∷ []) }
{
    let mut traces = Vec::new(alloc);
    traces.push(Trace {
        place,
        denied: false,
    })?;
    Ok(traces)
}

/// What stands in what a name stands for, with these arguments.
fn trace_name<'a, 'n>(
    alloc: Global,
    scope: &Scope<'a>,
    tracked: &[&'n Name],
    name: &Name,
    arguments: &[Vec<Trace>],
) -> Result<Vec<Trace>, AllocError>
    ensures { IfOk result (λ v. IsNamed scope.now.names.items (map (λ x. x.now) tracked.now) name.now (map (λ a. a.items) arguments.now) v.items) }
{
    match place_of(tracked, name) {
        Some(place) => trace_itself(alloc, place),
        None => trace_outer(alloc, scope, tracked.len(), name, arguments),
    }
}

/// Takes what stands in the latest of the texts that wait.
fn latest(alloc: Global, waiting: &mut Vec<Vec<Trace>>) -> Vec<Trace>
    ensures value { result.items ≡ latest_of [] (reverse (map (λ a. a.items) waiting.old.items)) }
    ensures rest { reverse (map (λ a. a.items) waiting.new.items) ≡ earlier (reverse (map (λ a. a.items) waiting.old.items)) }
{
    match waiting.pop() {
        Some(traces) => traces,
        None => Vec::new(alloc),
    }
}

/// What stands in a leaf.
fn trace_leaf<'a, 'n>(
    alloc: Global,
    scope: &Scope<'a>,
    tracked: &[&'n Name],
    leaf: &Leaf,
) -> Result<Vec<Trace>, AllocError>
    ensures { IfOk result (λ v. Traced scope.now.names.items (map (λ x. x.now) tracked.now) v.items (leaf_of leaf.now)) }
{
    match leaf {
        Leaf::Name(name) => trace_name(alloc, scope, tracked, name, &[]),
        Leaf::EmptyRelation => Ok(Vec::new(alloc)),
        Leaf::EmptySet => Ok(Vec::new(alloc)),
        Leaf::Universe => Ok(Vec::new(alloc)),
    }
}

/// What stands in what a sign makes.
fn trace_sign(sign: Sign, mut operand: Vec<Trace>) -> Vec<Trace>
    ensures { result.items ≡ traces_applied sign operand.items }
{
    if sign == Sign::Complement {
        deny(&mut operand);
    }
    operand
}

/// What stands in what an operator makes.
fn trace_infix(
    operator: Infix,
    mut left: Vec<Trace>,
    mut right: Vec<Trace>,
) -> Result<Vec<Trace>, AllocError>
    ensures { IfOk result (λ v. v.items ≡ traces_joined operator left.items right.items) }
{
    if operator == Infix::Difference {
        deny(&mut right);
    }
    left.append(&mut right)?;
    Ok(left)
}

/// What stands in what a node makes of the latest of the texts that wait.
fn trace_node<'a, 'n>(
    alloc: Global,
    scope: &Scope<'a>,
    tracked: &[&'n Name],
    node: &Node,
    waiting: &mut Vec<Vec<Trace>>,
) -> Result<Vec<Trace>, AllocError>
    ensures { IfOk result (λ v. (ts : List Term) → AreTraced scope.now.names.items (map (λ x. x.now) tracked.now) (reverse (map (λ a. a.items) waiting.old.items)) ts → AreTraced scope.now.names.items (map (λ x. x.now) tracked.now) (v.items ∷ reverse (map (λ a. a.items) waiting.new.items)) (left_by node.now ts)) }
{
    match node {
        Node::Leaf(leaf) => trace_leaf(alloc, scope, tracked, leaf),
        Node::Sign(sign) => {
            let operand = latest(alloc, waiting);
            Ok(trace_sign(*sign, operand))
        }
        Node::Infix(operator) => {
            let right = latest(alloc, waiting);
            let left = latest(alloc, waiting);
            trace_infix(*operator, left, right)
        }
        Node::Call(name, count) => {
            let from = waiting.len().saturating_sub(*count);
            let traces = trace_name(alloc, scope, tracked, name, &waiting[from..])?;
            waiting.truncate(from);
            Ok(traces)
        }
    }
}

/// Which of the tracked names stand in an expression once calls are replaced, in reading order.
fn trace_all<'a, 'n>(
    alloc: Global,
    scope: &Scope<'a>,
    tracked: &[&'n Name],
    expression: &Expression,
) -> Result<Vec<Trace>, AllocError>
    ensures { IfOk result (λ v. Traced scope.now.names.items (map (λ x. x.now) tracked.now) v.items (term_of expression.now)) }
{
    let mut waiting = Vec::new(alloc);
    for node in &expression.nodes {
        let traces = trace_node(alloc, scope, tracked, node, &mut waiting)?;
        waiting.push(traces)?;
    }
    Ok(latest(alloc, &mut waiting))
}

/// The summary of a function with these parameters.
pub fn make_marked<'a>(
    alloc: Global,
    scope: &Scope<'a>,
    parameters: &[Name],
    body: &Expression,
) -> Result<Marked, AllocError>
    ensures { IfOk result (λ s. (M : Marking) → FitMarks scope.now.names.items M → IsMarked s (applied_marks M parameters.now (term_of body.now))) }
{
    let tracked = each(alloc, parameters)?;
    let traces = trace_all(alloc, scope, &tracked, body)?;
    Ok(Marked {
        count: parameters.len(),
        traces: distinct(alloc, parameters.len(), &traces)?,
    })
}

/// The names that a group binds.
fn names_of<'g>(alloc: Global, group: &'g [Binding]) -> Result<Vec<&'g Name>, AllocError>
    ensures { IfOk result (λ v. map (λ x. x.now) v.items ≡ map (λ b. b.name) (map bound_of group.now)) }
{
    let mut names = Vec::new(alloc);
    for binding in group {
        names.push(&binding.name)?;
    }
    Ok(names)
}

/// The first of these names that is denied.
fn first_name<'g>(traces: &[Trace], names: &[&'g Name]) -> Option<&'g Name>
    ensures { MatchOption result ((i : ℕ) → i < length names.now → ¬ Contains traces.now (record { place = i; denied = true })) (λ x. IsDeniedName traces.now (map (λ y. y.now) names.now) x.now) }
{
    for trace in traces {
        if trace.denied {
            if let Some(name) = names.get(trace.place) {
                return Some(name);
            }
        }
    }
    None
}

/// The first name of a group that is denied in an expression once calls are replaced, in the reading order of what they are replaced by.
pub fn first_denied<'a, 'g>(
    alloc: Global,
    scope: &Scope<'a>,
    group: &'g [Binding],
    expression: &Expression,
) -> Result<Option<&'g Name>, AllocError>
    ensures { IfOk result (λ o. (M : Marking) → FitMarks scope.now.names.items M → MatchOption o (denied_in (marks (grouped (map bound_of group.now) M) (term_of expression.now)) ≡ []) (λ x. Contains (denied_in (marks (grouped (map bound_of group.now) M) (term_of expression.now))) x.now)) }
{
    let names = names_of(alloc, group)?;
    let traces = trace_all(alloc, scope, &names, expression)?;
    Ok(first_name(&traces, &names))
}
