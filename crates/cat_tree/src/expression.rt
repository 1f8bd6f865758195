//! Expressions.

ghost use Rattle.std.specs.Prelude.{◌≡◌};
ghost use Rattle.cat_tree.specs.Terms.{postorder, term_in};

mod copying;
mod equality;
mod making;
mod spelling;

use crate::node::Node;

/// An expression: a set of events or a relation between events. It lies as the nodes of its tree, each behind the nodes of
/// its operands, the left one's first. Contracts see it as its term; each term has one list of nodes. Nothing that is done
/// to an expression recurses, however its tree nests.
#[derive(Drop)]
pub struct Expression {
    pub nodes: Vec<Node>,
    ghost whole: { postorder (term_in nodes.items) ≡ nodes.items },
}
