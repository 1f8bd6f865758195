//! Second expressions that are equal. What a copy owns comes from the allocators that its first has.

ghost use Rattle.std.specs.Prelude.{◌≡◌, IfOk};
ghost use Rattle.cat_tree.specs.Tree.{term_of};

use crate::expression::Expression;
use crate::node::{Leaf, Node};
use std::alloc::AllocError;

impl Leaf {
    /// A second leaf that is equal.
    pub fn copy(&self) -> Result<Leaf, AllocError>
        ensures { IfOk result (λ l. l ≡ self.now) }
    {
        match self {
            Leaf::Name(name) => Ok(Leaf::Name(name.copy()?)),
            Leaf::EmptyRelation => Ok(Leaf::EmptyRelation),
            Leaf::EmptySet => Ok(Leaf::EmptySet),
            Leaf::Universe => Ok(Leaf::Universe),
        }
    }
}

impl Node {
    /// A second node that is equal.
    fn copy(&self) -> Result<Node, AllocError>
        ensures { IfOk result (λ n. n ≡ self.now) }
    {
        match self {
            Node::Leaf(leaf) => Ok(Node::Leaf(leaf.copy()?)),
            Node::Sign(sign) => Ok(Node::Sign(*sign)),
            Node::Infix(operator) => Ok(Node::Infix(*operator)),
            Node::Call(name, count) => Ok(Node::Call(name.copy()?, *count)),
        }
    }
}

fn copy_nodes(nodes: &Vec<Node>) -> Result<Vec<Node>, AllocError>
    ensures { IfOk result (λ v. v.items ≡ nodes.now.items) }
{
    let mut copies = Vec::with_capacity(*nodes.allocator(), nodes.len())?;
    for node in nodes {
        copies.push(node.copy()?)?;
    }
    Ok(copies)
}

impl Expression {
    /// A second expression that is equal. It does not recurse: a loop goes over the nodes.
    #[tactic(auto, using(crate::proofs::Nodes::same_whole))]
    pub fn copy(&self) -> Result<Expression, AllocError>
        ensures { IfOk result (λ e. term_of e ≡ term_of self.now) }
    {
        let nodes = copy_nodes(&self.nodes)?;
        Ok(Expression { nodes })
    }
}
