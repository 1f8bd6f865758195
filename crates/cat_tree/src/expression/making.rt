//! Expressions of their parts.

ghost use Rattle.std.specs.Prelude.{◌≡◌, ◌++◌, map, IfOk, OnOk};
ghost use Rattle.cat_tree.specs.Terms.{applied, joined, call, terms_of, leaf_of, nest, operands_in, operators_in, postorder, postorders};
ghost use Rattle.cat_tree.specs.Tree.{term_of, pair_of};

use crate::expression::Expression;
use crate::node::{Infix, Leaf, Node, Sign};
use std::alloc::{AllocError, Global};
use wb_text::Name;

/// Puts the nodes of an expression behind others.
fn append(nodes: &mut Vec<Node>, expression: Expression) -> Result<(), AllocError>
    ensures { OnOk result (nodes.new.items ≡ nodes.old.items ++ postorder (term_of expression)) }
{
    let mut more = expression.nodes;
    nodes.append(&mut more)?;
    Ok(())
}

/// The nodes of the left operands of a chain, and its operators.
fn unjoined(
    alloc: Global,
    lefts: Vec<(Infix, Expression)>,
    operators: &mut Vec<Node>,
) -> Result<Vec<Node>, AllocError>
    ensures nodes { IfOk result (λ v. v.items ≡ operands_in (map pair_of lefts.items)) }
    ensures operators { OnOk result (operators.new.items ≡ operators.old.items ++ operators_in (map pair_of lefts.items)) }
{
    let mut nodes = Vec::new(alloc);
    for (operator, left) in lefts {
        append(&mut nodes, left)?;
        operators.push(Node::Infix(operator))?;
    }
    Ok(nodes)
}

/// The nodes of arguments, one behind another.
fn argument_nodes(alloc: Global, arguments: Vec<Expression>) -> Result<Vec<Node>, AllocError>
    ensures { IfOk result (λ v. v.items ≡ postorders (terms_of (map term_of arguments.items))) }
{
    let mut nodes = Vec::new(alloc);
    for argument in arguments {
        append(&mut nodes, argument)?;
    }
    Ok(nodes)
}

impl Expression {
    /// A leaf alone.
    #[tactic(auto, using(crate::proofs::Nodes::leaf_whole, crate::proofs::Nodes::leaf_term))]
    pub fn leaf(alloc: Global, leaf: Leaf) -> Result<Expression, AllocError>
        ensures { IfOk result (λ e. term_of e ≡ leaf_of leaf) }
    {
        let mut nodes = Vec::with_capacity(alloc, 1)?;
        nodes.push(Node::Leaf(leaf))?;
        Ok(Expression { nodes })
    }

    /// What a sign makes of this.
    #[tactic(auto, using(crate::proofs::Nodes::sign_whole, crate::proofs::Nodes::sign_term))]
    pub fn applied(self, sign: Sign) -> Result<Expression, AllocError>
        ensures { IfOk result (λ e. term_of e ≡ applied sign (term_of self)) }
    {
        let mut nodes = self.nodes;
        nodes.push(Node::Sign(sign))?;
        Ok(Expression { nodes })
    }

    /// What an operator makes of this and of its right operand.
    #[tactic(auto, using(crate::proofs::Nodes::infix_whole, crate::proofs::Nodes::infix_term))]
    pub fn joined(self, operator: Infix, operand: Expression) -> Result<Expression, AllocError>
        ensures { IfOk result (λ e. term_of e ≡ joined operator (term_of self) (term_of operand)) }
    {
        let mut nodes = self.nodes;
        append(&mut nodes, operand)?;
        nodes.push(Node::Infix(operator))?;
        Ok(Expression { nodes })
    }

    /// What operators that associate to the right make of their left operands, in order, and of the last operand: in one
    /// step for each node.
    #[tactic(auto, using(crate::proofs::Nodes::nest_whole, crate::proofs::Nodes::nest_term))]
    pub fn nested(
        alloc: Global,
        lefts: Vec<(Infix, Expression)>,
        last: Expression,
    ) -> Result<Expression, AllocError>
        ensures { IfOk result (λ e. term_of e ≡ nest (map pair_of lefts.items) (term_of last)) }
    {
        if lefts.is_empty() {
            return Ok(last);
        }
        let mut operators = Vec::with_capacity(alloc, lefts.len())?;
        let mut nodes = unjoined(alloc, lefts, &mut operators)?;
        append(&mut nodes, last)?;
        operators.reverse();
        nodes.append(&mut operators)?;
        Ok(Expression { nodes })
    }

    /// A call of the function of this name with these arguments.
    #[tactic(auto, using(crate::proofs::Nodes::call_whole, crate::proofs::Nodes::call_term))]
    pub fn call(
        alloc: Global,
        name: Name,
        arguments: Vec<Expression>,
    ) -> Result<Expression, AllocError>
        ensures { IfOk result (λ e. term_of e ≡ call name (terms_of (map term_of arguments.items))) }
    {
        let count = arguments.len();
        let mut nodes = argument_nodes(alloc, arguments)?;
        nodes.push(Node::Call(name, count))?;
        Ok(Expression { nodes })
    }

    /// The same, with no room for more nodes.
    pub fn trimmed(self) -> Expression
        ensures { term_of result ≡ term_of self }
    {
        let mut nodes = self.nodes;
        nodes.shrink_to_fit();
        Expression { nodes }
    }
}
