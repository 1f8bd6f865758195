//! Items as literals, and the trees that they stand for.

ghost use Rattle.std.specs.Prelude.{◌≡◌, ◌∷◌, [], Some, IfOk};
ghost use Rattle.cat_tree.specs.Terms.{applied as applied_by, joined as joined_by};
ghost use Rattle.cat_tree.specs.Tree.{term_of, clause_of, bind as let_clause, check as check_clause};
ghost use Rattle.cat_model.specs.Sketches.{sketched, line_of};

use crate::words::word;
use cat_tree::{Check, CheckKind, Definition, Expression, Infix, Item, Leaf, Sign};
use std::alloc::{AllocError, Global};

/// An expression that the program's text holds.
pub enum Sketch {
    Name(&'static [u8]),
    Universe,
    Union(&'static Sketch, &'static Sketch),
    Sequence(&'static Sketch, &'static Sketch),
    Difference(&'static Sketch, &'static Sketch),
    Intersection(&'static Sketch, &'static Sketch),
    Product(&'static Sketch, &'static Sketch),
    Plus(&'static Sketch),
    Star(&'static Sketch),
    Optional(&'static Sketch),
    Inverse(&'static Sketch),
    Identity(&'static Sketch),
}

/// An item that the program's text holds.
pub enum Line {
    /// `let name = value`
    Let(&'static [u8], Sketch),
    /// `kind value as name`
    Check(CheckKind, Sketch, &'static [u8]),
    /// `flag ~kind value as name`
    FlagNot(CheckKind, Sketch, &'static [u8]),
}

/// The expression, node by node.
#[cycle(drawing)]
pub fn expression(alloc: Global, sketch: &Sketch) -> Result<Expression, AllocError>
    ensures { IfOk result (λ e. term_of e ≡ sketched sketch.now) }
{
    match sketch {
        Sketch::Name(name) => Expression::leaf(alloc, Leaf::Name(word(alloc, name)?)),
        Sketch::Universe => Expression::leaf(alloc, Leaf::Universe),
        Sketch::Union(a, b) => joined(alloc, a, Infix::Union, b),
        Sketch::Sequence(a, b) => joined(alloc, a, Infix::Sequence, b),
        Sketch::Difference(a, b) => joined(alloc, a, Infix::Difference, b),
        Sketch::Intersection(a, b) => joined(alloc, a, Infix::Intersection, b),
        Sketch::Product(a, b) => joined(alloc, a, Infix::Product, b),
        Sketch::Plus(a) => applied(alloc, Sign::Plus, a),
        Sketch::Star(a) => applied(alloc, Sign::Star, a),
        Sketch::Optional(a) => applied(alloc, Sign::Optional, a),
        Sketch::Inverse(a) => applied(alloc, Sign::Inverse, a),
        Sketch::Identity(a) => applied(alloc, Sign::Identity, a),
    }
}

/// What a sign makes of an expression.
#[cycle(drawing)]
fn applied(alloc: Global, sign: Sign, operand: &Sketch) -> Result<Expression, AllocError>
    ensures { IfOk result (λ e. term_of e ≡ applied_by sign (sketched operand.now)) }
{
    expression(alloc, operand)?.applied(sign)
}

/// What an operator makes of two expressions.
#[cycle(drawing)]
fn joined(
    alloc: Global,
    left: &Sketch,
    operator: Infix,
    right: &Sketch,
) -> Result<Expression, AllocError>
    ensures { IfOk result (λ e. term_of e ≡ joined_by operator (sketched left.now) (sketched right.now)) }
{
    let left = expression(alloc, left)?;
    let right = expression(alloc, right)?;
    left.joined(operator, right)
}

/// An item that binds one name.
fn definition(alloc: Global, name: &[u8], value: &Sketch) -> Result<Item, AllocError>
    ensures { IfOk result (λ i. clause_of i ≡ let_clause (record { name = name.now; parameters = []; value = sketched value.now } ∷ [])) }
{
    let name = word(alloc, name)?;
    let value = expression(alloc, value)?;
    let mut bindings = Vec::new(alloc);
    bindings.push(Definition {
        name,
        parameters: Vec::new(alloc),
        value,
    })?;
    Ok(Item::Let(bindings))
}

/// A check, or a flag of what fails it.
fn check(
    alloc: Global,
    flagged: bool,
    kind: CheckKind,
    sketch: &Sketch,
    name: &[u8],
) -> Result<Item, AllocError>
    ensures { IfOk result (λ i. clause_of i ≡ check_clause flagged flagged kind (sketched sketch.now) (Some name.now)) }
{
    let name = word(alloc, name)?;
    let expression = expression(alloc, sketch)?;
    Ok(Item::Check(Check {
        flag: flagged,
        negated: flagged,
        kind,
        expression,
        name: Some(name),
    }))
}

/// The item.
pub fn item(alloc: Global, line: &Line) -> Result<Item, AllocError>
    ensures { IfOk result (λ i. clause_of i ≡ line_of line.now) }
{
    match line {
        Line::Let(name, value) => definition(alloc, name, value),
        Line::Check(kind, value, name) => check(alloc, false, *kind, value, name),
        Line::FlagNot(kind, value, name) => check(alloc, true, *kind, value, name),
    }
}
