//! Expressions as they are written in a key.

ghost use Rattle.std.specs.Prelude.{◌≡◌, OnOk};
ghost use Rattle.litmus_tree.specs.Spellings.{operator_byte, term_over, growth_over};
ghost use Rattle.litmus_tree.specs.Tree.{leaf_of, growth_of, term_of};

use crate::expression::{Expression, Leaf, Link, Operator};
use keys::{Key, Spell};
use std::alloc::AllocError;

impl Leaf {
    fn spell(&self, key: &mut Key) -> Result<(), AllocError>
        ensures { OnOk result (key.new ≡ term_over (leaf_of self.now) key.old) }
    {
        match self {
            Leaf::Number(number) => {
                key.push_number(u64::from(*number))?;
                key.push_byte(0)
            }
            Leaf::Register(register) => {
                register.spell(key)?;
                key.push_byte(1)
            }
        }
    }
}

impl Expression {
    /// Writes the leaf, and then link after link. Recursion goes into right operands alone.
    #[cycle(spelling)]
    pub(crate) fn spell(&self, key: &mut Key) -> Result<(), AllocError>
        ensures { OnOk result (key.new ≡ term_over (term_of self.now) key.old) }
    {
        self.first.spell(key)?;
        for link in &self.rest {
            link.spell(key)?;
        }
        Ok(())
    }
}

impl Link {
    /// Writes the operand, and the operator's byte on top.
    #[cycle(spelling)]
    #[tactic(auto, using(crate::specs::Chains::join_is))]
    fn spell(&self, key: &mut Key) -> Result<(), AllocError>
        ensures { OnOk result (key.new ≡ growth_over key.old (growth_of self.now)) }
    {
        match self {
            Link::Not => key.push_byte(2),
            Link::Join(operator, operand) => {
                operand.spell(key)?;
                key.push_byte(operator.byte())
            }
        }
    }
}

impl Operator {
    fn byte(self) -> u8
        ensures { result ≡ operator_byte self }
    {
        match self {
            Operator::Equal => 3,
            Operator::Unequal => 4,
            Operator::Both => 5,
            Operator::Either => 6,
        }
    }
}
