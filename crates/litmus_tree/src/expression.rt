//! Expressions.

ghost use Rattle.std.specs.Prelude.{◌≡◌, IfOk};
ghost use Rattle.litmus_tree.specs.Tree.{denied, joined, grown, leaf_of, growth_of, term_of};

mod spelling;

use std::alloc::{AllocError, Global};
use wb_text::Name;

/// An operator between two expressions. Each gives 0 or 1.
#[derive(Clone, Copy, Debug, PartialEq, Eq)]
pub enum Operator {
    /// `==`
    Equal,
    /// `!=`
    Unequal,
    /// `&&`
    Both,
    /// `||`
    Either,
}

/// What an expression begins with.
pub enum Leaf {
    Number(u32),
    /// The value that a register holds.
    Register(Name),
}

// A function of its own: whoever holds one drops it by a call.
impl Drop for Leaf {
    fn drop(self) {
        match self {
            Leaf::Number(_) => {}
            Leaf::Register(_) => {}
        }
    }
}

/// An expression: the leaf on the far left of its tree, and the links from there up to the tree's root. Contracts see it
/// as its term. Each term has one value, whatever parentheses it was written with, and no recursion follows a chain of
/// operators: it goes into right operands alone.
#[cycle(expressions)]
#[derive(Drop)]
pub struct Expression {
    pub first: Leaf,
    pub rest: Vec<Link>,
}

/// What is done to all that stands before it.
#[cycle(expressions)]
#[derive(Drop)]
pub enum Link {
    /// `!` before it.
    Not,
    /// An operator, and its right operand.
    Join(Operator, Expression),
}

impl Expression {
    /// A leaf alone.
    pub fn leaf(alloc: Global, first: Leaf) -> Expression
        ensures { term_of result ≡ leaf_of first }
    {
        Expression {
            first,
            rest: Vec::new(alloc),
        }
    }

    /// One link more.
    #[tactic(auto, using(crate::proofs::Links::term_push))]
    fn linked(self, link: Link) -> Result<Expression, AllocError>
        ensures { IfOk result (λ e. term_of e ≡ grown (term_of self) (growth_of link)) }
    {
        let mut rest = self.rest;
        rest.push(link)?;
        Ok(Expression {
            first: self.first,
            rest,
        })
    }

    /// The same, with no room for more links.
    pub fn trimmed(self) -> Expression
        ensures { term_of result ≡ term_of self }
    {
        let mut rest = self.rest;
        rest.shrink_to_fit();
        Expression {
            first: self.first,
            rest,
        }
    }

    /// The expression that an operator makes of this and of its right operand.
    #[tactic(auto, using(crate::specs::Chains::join_is))]
    pub fn joined(self, operator: Operator, operand: Expression) -> Result<Expression, AllocError>
        ensures { IfOk result (λ e. term_of e ≡ joined operator (term_of self) (term_of operand)) }
    {
        self.linked(Link::Join(operator, operand.trimmed()))
    }

    /// `!` before this.
    pub fn denied(self) -> Result<Expression, AllocError>
        ensures { IfOk result (λ e. term_of e ≡ denied (term_of self)) }
    {
        self.linked(Link::Not)
    }
}
