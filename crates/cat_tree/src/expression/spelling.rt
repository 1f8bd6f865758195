//! Expressions in keys.

ghost use Rattle.std.specs.Prelude.{◌≡◌, OnOk};
ghost use Rattle.cat_tree.specs.Spellings.{leaf_over, node_over, sign_byte, infix_byte, spelled_term};
ghost use Rattle.cat_tree.specs.Tree.{term_of};

use crate::expression::Expression;
use crate::node::{Infix, Leaf, Node, Sign};
use keys::{Key, Spell, spell_all};
use std::alloc::AllocError;

impl Sign {
    /// The byte that tells it from the other signs.
    fn byte(self) -> u8
        ensures { result ≡ sign_byte self }
    {
        match self {
            Sign::Complement => 0,
            Sign::Plus => 1,
            Sign::Star => 2,
            Sign::Optional => 3,
            Sign::Inverse => 4,
            Sign::Domain => 5,
            Sign::Range => 6,
            Sign::Identity => 7,
        }
    }
}

impl Infix {
    /// The byte that tells it from the other operators.
    fn byte(self) -> u8
        ensures { result ≡ infix_byte self }
    {
        match self {
            Infix::Union => 0,
            Infix::Sequence => 1,
            Infix::Difference => 2,
            Infix::Intersection => 3,
            Infix::Product => 4,
        }
    }
}

fn spell_leaf(leaf: &Leaf, key: &mut Key) -> Result<(), AllocError>
    ensures { OnOk result (key.new ≡ leaf_over leaf.now key.old) }
{
    match leaf {
        Leaf::Name(name) => {
            name.spell(key)?;
            key.push_byte(0)
        }
        Leaf::EmptyRelation => key.push_byte(1),
        Leaf::EmptySet => key.push_byte(2),
        Leaf::Universe => key.push_byte(3),
    }
}

impl Spell for Node {
    ghost over = { node_over };

    fn spell(&self, key: &mut Key) -> Result<(), AllocError>
        ensures { OnOk result (key.new ≡ node_over self.now key.old) }
    {
        match self {
            Node::Leaf(leaf) => {
                spell_leaf(leaf, key)?;
                key.push_byte(0)
            }
            Node::Sign(sign) => {
                key.push_byte(sign.byte())?;
                key.push_byte(1)
            }
            Node::Infix(operator) => {
                key.push_byte(operator.byte())?;
                key.push_byte(2)
            }
            Node::Call(name, count) => {
                name.spell(key)?;
                key.push_number(*count as u64)?;
                key.push_byte(3)
            }
        }
    }
}

impl Spell for Expression {
    ghost over = { λ e s. spelled_term.over (term_of e) s };

    /// It does not recurse: a loop goes over the nodes.
    fn spell(&self, key: &mut Key) -> Result<(), AllocError>
        ensures { OnOk result (key.new ≡ spelled_term.over (term_of self.now) key.old) }
    {
        spell_all(&self.nodes, key)
    }
}
