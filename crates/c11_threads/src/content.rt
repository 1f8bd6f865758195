//! What a register holds, and what an expression gives.

ghost use Rattle.std.specs.Prelude.{◌≡◌, ◌<◌, ◌^◌};
ghost use Rattle.litmus_tree.specs.Tree.{leaf_of, growth_of, term_of, computed_by};
ghost use Rattle.c11_threads.specs.Contents.{place_of, just, joined, nothing, truth, content, holds, content_in, passed, modified};

use events::no_places;
use litmus_tree::{Computation, Expression, Leaf, Link, Operator};
use relations::Places;
use wb_text::Name;

/// What a register holds, or an expression gives: a value, and the reads of the thread that reached
/// it, by their places in the thread's run.
#[derive(Drop)]
pub struct Content {
    pub value: u32,
    pub reads: Places,
}

/// The first place of a name, or how many names there are.
pub fn place_of(names: &[Name], name: &Name) -> usize
    ensures { result ≡ place_of name.now names.now }
{
    for (place, other) in names.iter().enumerate() {
        if other == name {
            return place;
        }
    }
    names.len()
}

/// The set of one place. A place past 63, which no thread has, is left out.
pub(crate) fn just(place: usize) -> Places
    ensures { result ≡ just place }
{
    Places::just(place)
}

/// The places of both sets.
pub(crate) fn joined(first: &Places, second: &Places) -> Places
    ensures { result ≡ joined first.now second.now }
{
    first.union(second)
}

impl Content {
    /// 0, which no read reached.
    pub(crate) fn nothing() -> Self
        ensures { result ≡ nothing }
    {
        Content {
            value: 0,
            reads: no_places(),
        }
    }

    /// The same content once more.
    pub(crate) fn copy(&self) -> Self
        ensures { result ≡ self.now }
    {
        Content {
            value: self.value,
            reads: self.reads.copy(),
        }
    }
}

/// What is computed of what was read and a constant.
pub(crate) fn modified(computation: Computation, constant: u32, read: Content) -> Content
    requires { computed_by computation read.value constant < 2 ^ 32 }
    ensures { result ≡ modified computation constant read }
{
    Content {
        value: computation.of(read.value, constant),
        reads: read.reads,
    }
}

/// 1 for true and 0 for false.
fn truth(holds: bool) -> u32
    ensures { result ≡ truth holds }
{
    if holds { 1 } else { 0 }
}

/// What a register holds; a register that isn't there holds 0.
fn held_by(names: &[Name], registers: &[Content], register: &Name) -> Content
    ensures { result ≡ content names.now registers.now register.now }
{
    match registers.get(place_of(names, register)) {
        Some(content) => content.copy(),
        None => Content::nothing(),
    }
}

/// What an operator gives that is true of two operands or not.
fn decided(first: &Content, second: &Content, holds: bool) -> Content
    ensures { result ≡ record { value = truth holds; reads = joined first.now.reads second.now.reads } }
{
    Content {
        value: truth(holds),
        reads: joined(&first.reads, &second.reads),
    }
}

/// Whether an operator is true of two values.
fn holds(operator: Operator, first: u32, second: u32) -> bool
    ensures { result ≡ holds operator first second }
{
    match operator {
        Operator::Equal => first == second,
        Operator::Unequal => first != second,
        Operator::Both => first != 0 && second != 0,
        Operator::Either => first != 0 || second != 0,
    }
}

fn leaf_content(names: &[Name], registers: &[Content], leaf: &Leaf) -> Content
    ensures { result ≡ content_in names.now registers.now (leaf_of leaf.now) }
{
    match leaf {
        Leaf::Number(value) => Content {
            value: *value,
            reads: no_places(),
        },
        Leaf::Register(register) => held_by(names, registers, register),
    }
}

/// What an expression gives. Both operands of an operator are evaluated. Recursion goes into right operands alone.
#[cycle(evaluating)]
#[tactic(auto, using(crate::proofs::Chains::content_along))]
pub(crate) fn content_of(names: &[Name], registers: &[Content], expression: &Expression) -> Content
    ensures { result ≡ content_in names.now registers.now (term_of expression.now) }
{
    let mut so_far = leaf_content(names, registers, &expression.first);
    for link in &expression.rest {
        so_far = link_content(names, registers, so_far, link);
    }
    so_far
}

/// What all up to this link gives, where what stands before it gives `so_far`.
#[cycle(evaluating)]
#[tactic(auto, using(litmus_tree::specs::Chains::join_is))]
fn link_content(names: &[Name], registers: &[Content], so_far: Content, link: &Link) -> Content
    ensures { result ≡ passed names.now registers.now so_far (growth_of link.now) }
{
    match link {
        Link::Not => Content {
            value: truth(so_far.value == 0),
            reads: so_far.reads,
        },
        Link::Join(operator, operand) => {
            let second = content_of(names, registers, operand);
            let is_true = holds(*operator, so_far.value, second.value);
            decided(&so_far, &second, is_true)
        }
    }
}
