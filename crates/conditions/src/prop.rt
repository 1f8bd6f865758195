//! Propositions over a final state.

ghost use Rattle.std.specs.Prelude.{◌≡◌, IfOk};
ghost use Rattle.conditions.specs.Conditions.{negation, connected, grown, atomic, growth_of, formula_of};

mod equality;

use crate::place::Place;
use std::alloc::{AllocError, Global};

/// A connective between two propositions.
#[derive(Clone, Copy, Debug, PartialEq, Eq)]
pub enum Connective {
    /// `/\`
    And,
    /// `\/`
    Or,
    /// `=>`
    Implies,
}

/// What a proposition begins with.
pub enum Atom {
    True,
    False,
    /// The place has this value.
    Equals(Place, u32),
}

// A function of its own: whoever holds one drops it by a call.
impl Drop for Atom {
    fn drop(self) {
        match self {
            Atom::True => {}
            Atom::False => {}
            Atom::Equals(_, _) => {}
        }
    }
}

/// A proposition: the atom on the far left of its tree, and the links from there up to the tree's root. Contracts see it
/// as its formula. Each formula has one value, whatever parentheses it was written with, and no recursion follows a
/// chain of connectives: it goes into right operands alone.
#[cycle(propositions)]
#[derive(Drop)]
pub struct Prop {
    pub first: Atom,
    pub rest: Vec<Link>,
}

/// What is done to all that stands before it.
#[cycle(propositions)]
#[derive(Drop)]
pub enum Link {
    /// `~` before it.
    Not,
    /// A connective, and its right operand.
    Join(Connective, Prop),
}

impl Prop {
    /// An atom alone.
    pub fn atom(alloc: Global, first: Atom) -> Prop
        ensures { formula_of result ≡ atomic first }
    {
        Prop {
            first,
            rest: Vec::new(alloc),
        }
    }

    /// One link more.
    #[tactic(auto, using(crate::proofs::Links::formula_push))]
    fn linked(self, link: Link) -> Result<Prop, AllocError>
        ensures { IfOk result (λ p. formula_of p ≡ grown (formula_of self) (growth_of link)) }
    {
        let mut rest = self.rest;
        rest.push(link)?;
        Ok(Prop {
            first: self.first,
            rest,
        })
    }

    /// The same, with no room for more links.
    pub fn trimmed(self) -> Prop
        ensures { formula_of result ≡ formula_of self }
    {
        let mut rest = self.rest;
        rest.shrink_to_fit();
        Prop {
            first: self.first,
            rest,
        }
    }

    /// The proposition that a connective makes of this and of its right operand.
    #[tactic(auto, using(crate::specs::Chains::join_is))]
    pub fn joined(self, connective: Connective, operand: Prop) -> Result<Prop, AllocError>
        ensures { IfOk result (λ p. formula_of p ≡ connected connective (formula_of self) (formula_of operand)) }
    {
        self.linked(Link::Join(connective, operand.trimmed()))
    }

    /// `~` before this.
    pub fn denied(self) -> Result<Prop, AllocError>
        ensures { IfOk result (λ p. formula_of p ≡ negation (formula_of self)) }
    {
        self.linked(Link::Not)
    }
}
