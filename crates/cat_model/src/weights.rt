//! Sizes and depths of expressions whose calls are replaced, by one count. Nothing is replaced for it: there is one look at each
//! node, from the last to the first, with a weight for each operand that waits. A function's weights are made once, at its
//! binding, and a call's are made of them.

ghost use Rattle.std.specs.Prelude.{◌≡◌, ◌+◌, ◌*◌, ◌<◌, ◌∷◌, ◌++◌, [], List, ℕ, length, replicate, get_or, OnOk, IfOk};
ghost use Rattle.std.proofs.Common.{suc};
ghost use Rattle.cat_tree.specs.Tree.{term_of};
ghost use Rattle.cat_tree.specs.declared.node.Node.TheVariants.{Leaf as LeafNode};
ghost use Rattle.cat_model.specs.Lookups.{held_in};
ghost use Rattle.cat_model.specs.Weights.{Alike, beside as beside_by, within as within_by, deeper as deeper_by, placed, node_over, by_weights, by_held, weights_of as weights_in, place_in, just_weight, told, made, arity, AreWeights, IsCounted, IsStep, AreWithin};
ghost use Rattle.cat_model.specs.declared.weights.Measure.TheVariants.{Depth as OfDepth};

use crate::scope::{Held, Scope, Summary};
use cat_tree::{Expression, Leaf, Node};
use std::alloc::{AllocError, Global};
use wb_text::Name;

/// All larger sizes count as this one.
const GREATEST_SIZE: u32 = 65_537;

/// The weight of a depth of 65, as which all larger depths count.
const GREATEST_DEPTH: u32 = 66;

/// What is weighed.
#[derive(Clone, Copy)]
pub enum Measure {
    /// How many nodes there are.
    Size,
    /// How many bodies stand inside one another: a depth weighs one more than it is, and what stands nowhere weighs 0.
    Depth,
}

/// Weights that are counted so far, and those of operands that wait, the latest last.
#[derive(Drop)]
pub struct Tally {
    /// The first is that of an expression's own nodes, the others are those of its parameters.
    pub weights: Vec<u32>,
    pub waiting: Vec<u32>,
}

/// The weight of two beside one another.
#[tactic(auto, using(crate::proofs::Sums::capped))]
fn beside(measure: Measure, a: u32, b: u32) -> u32
    ensures { Alike measure result (beside_by measure a b) }
{
    match measure {
        Measure::Size => a.saturating_add(b).min(GREATEST_SIZE),
        Measure::Depth => a.max(b),
    }
}

/// The weight of a depth inside another.
#[tactic(auto, using(crate::proofs::Sums::deeper_nowhere, crate::proofs::Sums::deeper_capped))]
fn deeper(a: u32, b: u32) -> u32
    ensures { Alike OfDepth result (deeper_by a b) }
{
    if a == 0 {
        return 0;
    }
    if b == 0 {
        return 0;
    }
    a.saturating_add(b - 1).min(GREATEST_DEPTH)
}

/// The weight of what weighs `b`, where it stands with weight `a`.
#[tactic(auto, using(crate::proofs::Sums::capped))]
fn within(measure: Measure, a: u32, b: u32) -> u32
    ensures { Alike measure result (within_by measure a b) }
{
    match measure {
        Measure::Size => a.saturating_mul(b).min(GREATEST_SIZE),
        Measure::Depth => deeper(a, b),
    }
}

/// Counts a weight at a place.
fn add(weights: &mut Vec<u32>, measure: Measure, place: usize, weight: u32)
    requires { place < length weights.old.items }
    ensures long { length weights.new.items ≡ length weights.old.items }
    ensures added { (ns : List ℕ) → length weights.old.items ≡ length ns → Alike measure (placed measure weights.new.items ns) (beside_by measure (placed measure weights.old.items ns) (within_by measure weight (get_or ns place 0))) }
{
    weights[place] = beside(measure, weights[place], weight);
}

/// Each of so many operands waits with the same weight.
fn wait_same(waiting: &mut Vec<u32>, weight: u32, count: usize) -> Result<(), AllocError>
    ensures { OnOk result (waiting.new.items ≡ waiting.old.items ++ replicate count weight) }
{
    for _number in 0..count {
        waiting.push(weight)?;
    }
    Ok(())
}

/// Each argument waits with the weight of its parameter, within that of the call.
fn wait_within(
    waiting: &mut Vec<u32>,
    measure: Measure,
    weight: u32,
    times: &[u32],
) -> Result<(), AllocError>
    ensures { OnOk result ((ps : List ℕ) × (waiting.new.items ≡ waiting.old.items ++ ps) × AreWithin measure weight ps times.now) }
{
    for time in times {
        waiting.push(within(measure, weight, *time))?;
    }
    Ok(())
}

/// Counts a node, and lets its operands wait with its weight. A wrong call is such a node.
fn count_node(
    measure: Measure,
    count: usize,
    weight: u32,
    tally: &mut Tally,
) -> Result<(), AllocError>
    requires { 0 < length tally.old.weights.items }
    ensures { OnOk result (IsCounted measure tally.old.weights.items tally.old.waiting.items tally.new.weights.items tally.new.waiting.items count weight (λ ms ns. node_over measure ns)) }
{
    add(&mut tally.weights, measure, 0, weight);
    wait_same(&mut tally.waiting, weight, count)
}

/// Counts a function's body, and lets the arguments wait with the weights of its parameters.
fn count_body(
    measure: Measure,
    own: u32,
    times: &[u32],
    weight: u32,
    tally: &mut Tally,
) -> Result<(), AllocError>
    requires { 0 < length tally.old.weights.items }
    ensures { OnOk result (IsCounted measure tally.old.weights.items tally.old.waiting.items tally.new.weights.items tally.new.waiting.items (length times.now) weight (λ ms ns. placed measure (own ∷ times.now) (1 ∷ ns))) }
{
    let inside = within(measure, weight, own);
    add(&mut tally.weights, measure, 0, inside);
    wait_within(&mut tally.waiting, measure, weight, times)
}

/// Counts a call of a function with these weights.
fn count_call(
    measure: Measure,
    weights: &[u32],
    count: usize,
    weight: u32,
    tally: &mut Tally,
) -> Result<(), AllocError>
    requires { 0 < length tally.old.weights.items }
    ensures { OnOk result (IsCounted measure tally.old.weights.items tally.old.waiting.items tally.new.weights.items tally.new.waiting.items count weight (λ ms ns. by_weights measure weights.now ns)) }
{
    match weights.split_first() {
        Some((own, times)) => {
            if times.len() == count {
                count_body(measure, *own, times, weight, tally)
            } else {
                count_node(measure, count, weight, tally)
            }
        }
        None => count_node(measure, count, weight, tally),
    }
}

/// A function's weights.
fn weights_of(measure: Measure, summary: &Summary) -> &[u32]
    ensures { result.now ≡ weights_in measure summary.now }
{
    match measure {
        Measure::Size => &summary.sizing.weights,
        Measure::Depth => &summary.nesting.weights,
    }
}

/// Counts a name that is no parameter, with so many arguments.
fn count_bound<'a>(
    measure: Measure,
    scope: &Scope<'a>,
    name: &Name,
    count: usize,
    weight: u32,
    tally: &mut Tally,
) -> Result<(), AllocError>
    requires { 0 < length tally.old.weights.items }
    ensures { OnOk result (IsCounted measure tally.old.weights.items tally.old.waiting.items tally.new.weights.items tally.new.waiting.items count weight (λ ms ns. by_held measure (held_in scope.now.names.items name.now) ns)) }
{
    match scope.held(name) {
        Some(held) => match held {
            Held::Function(summary) => {
                count_call(measure, weights_of(measure, summary), count, weight, tally)
            }
            Held::Value(_) => count_node(measure, count, weight, tally),
        },
        None => count_node(measure, count, weight, tally),
    }
}

/// Counts a parameter, with so many arguments.
fn count_parameter(
    measure: Measure,
    place: usize,
    count: usize,
    weight: u32,
    tally: &mut Tally,
) -> Result<(), AllocError>
    requires { place < length tally.old.weights.items }
    ensures { OnOk result (IsCounted measure tally.old.weights.items tally.old.waiting.items tally.new.weights.items tally.new.waiting.items count weight (λ ms ns. just_weight measure (get_or (1 ∷ ms) place 0) ns)) }
{
    if count == 0 {
        add(&mut tally.weights, measure, place, weight);
        return Ok(());
    }
    count_node(measure, count, weight, tally)
}

/// The number of the latest parameter of this name, counted from one, or 0.
fn place_of(parameters: &[Name], name: &Name) -> usize
    ensures { result ≡ place_in parameters.now name.now }
{
    let mut rest = parameters;
    while let Some((last, before)) = rest.split_last() {
        if *last == *name {
            return rest.len();
        }
        rest = before;
    }
    0
}

/// Counts a name with so many arguments.
fn count_name<'a>(
    measure: Measure,
    scope: &Scope<'a>,
    parameters: &[Name],
    name: &Name,
    count: usize,
    weight: u32,
    tally: &mut Tally,
) -> Result<(), AllocError>
    requires { length tally.old.weights.items ≡ suc (length parameters.now) }
    ensures { OnOk result (IsCounted measure tally.old.weights.items tally.old.waiting.items tally.new.weights.items tally.new.waiting.items count weight (λ ms ns. told measure scope.now.names.items parameters.now ms name.now ns)) }
{
    let place = place_of(parameters, name);
    if place == 0 {
        return count_bound(measure, scope, name, count, weight, tally);
    }
    count_parameter(measure, place, count, weight, tally)
}

/// Counts a leaf.
fn count_leaf<'a>(
    measure: Measure,
    scope: &Scope<'a>,
    parameters: &[Name],
    leaf: &Leaf,
    weight: u32,
    tally: &mut Tally,
) -> Result<(), AllocError>
    requires { length tally.old.weights.items ≡ suc (length parameters.now) }
    ensures { OnOk result (IsCounted measure tally.old.weights.items tally.old.waiting.items tally.new.weights.items tally.new.waiting.items 0 weight (λ ms ns. made measure scope.now.names.items parameters.now ms (LeafNode leaf.now) ns)) }
{
    match leaf {
        Leaf::Name(name) => count_name(measure, scope, parameters, name, 0, weight, tally),
        Leaf::EmptyRelation => count_node(measure, 0, weight, tally),
        Leaf::EmptySet => count_node(measure, 0, weight, tally),
        Leaf::Universe => count_node(measure, 0, weight, tally),
    }
}

/// Counts a node of this weight, and lets its operands wait with theirs.
fn count_any<'a>(
    measure: Measure,
    scope: &Scope<'a>,
    parameters: &[Name],
    node: &Node,
    weight: u32,
    tally: &mut Tally,
) -> Result<(), AllocError>
    requires { length tally.old.weights.items ≡ suc (length parameters.now) }
    ensures { OnOk result (IsCounted measure tally.old.weights.items tally.old.waiting.items tally.new.weights.items tally.new.waiting.items (arity node.now) weight (λ ms ns. made measure scope.now.names.items parameters.now ms node.now ns)) }
{
    match node {
        Node::Leaf(leaf) => count_leaf(measure, scope, parameters, leaf, weight, tally),
        Node::Sign(_) => count_node(measure, 1, weight, tally),
        Node::Infix(_) => count_node(measure, 2, weight, tally),
        Node::Call(name, count) => {
            count_name(measure, scope, parameters, name, *count, weight, tally)
        }
    }
}

/// Counts the latest of the nodes that wait.
fn count_latest<'a>(
    measure: Measure,
    scope: &Scope<'a>,
    parameters: &[Name],
    node: &Node,
    tally: &mut Tally,
) -> Result<(), AllocError>
    requires long { length tally.old.weights.items ≡ suc (length parameters.now) }
    requires some { 0 < length tally.old.waiting.items }
    ensures { OnOk result (IsStep measure scope.now.names.items parameters.now node.now tally.old.weights.items tally.old.waiting.items tally.new.weights.items tally.new.waiting.items) }
{
    match tally.waiting.pop() {
        Some(weight) => count_any(measure, scope, parameters, node, weight, tally),
        None => unreachable!(),
    }
}

/// Nothing counted, and an expression that waits with this weight.
fn first_tally(alloc: Global, parameters: usize, weight: u32) -> Result<Tally, AllocError>
    ensures { IfOk result (λ t. (t.weights.items ≡ replicate (suc parameters) 0) × (t.waiting.items ≡ weight ∷ [])) }
{
    let mut weights = Vec::new(alloc);
    weights.push(0)?;
    wait_same(&mut weights, 0, parameters)?;
    let mut waiting = Vec::new(alloc);
    waiting.push(weight)?;
    Ok(Tally { weights, waiting })
}

/// The weights of an expression that stands with this one: first its own, and then those of its parameters.
pub fn weigh<'a>(
    alloc: Global,
    measure: Measure,
    scope: &Scope<'a>,
    parameters: &[Name],
    expression: &Expression,
    weight: u32,
) -> Result<Vec<u32>, AllocError>
    ensures { IfOk result (λ v. AreWeights measure scope.now.names.items parameters.now (term_of expression.now) weight v.items) }
{
    let mut tally = first_tally(alloc, parameters.len(), weight)?;
    let mut nodes: &[Node] = &expression.nodes;
    while let Some((last, before)) = nodes.split_last() {
        count_latest(measure, scope, parameters, last, &mut tally)?;
        nodes = before;
    }
    Ok(tally.weights)
}
