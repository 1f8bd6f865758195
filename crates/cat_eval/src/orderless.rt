//! Models that don't look at the coherence orders.

ghost use Rattle.std.specs.Prelude.{◌≡◌, IsTrue};
ghost use Rattle.std.specs.List.{list_any};
ghost use Rattle.cat_tree.specs.Tree.{term_of, clause_of};
ghost use Rattle.cat_eval.specs.Orderless.{IsOrderless, is_order as is_order_name, rests_on_orders as named_rests, leaf_names_order as leaf_names, node_names_order as node_names, term_names_order, clause_names_order, names_no_order};

use cat_model::{Model, Named};
use cat_tree::{Binding, Definition, Expression, Item, Leaf, Node};
use events::{Basis, laws};
use wb_text::Name;

// Does the set or relation rest on the orders?
fn rests_on_orders(named: Named) -> bool
    ensures { result ≡ named_rests named }
{
    match named {
        Named::Set(_) => false,
        Named::Rel(relation) => match relation.basis() {
            Basis::Runs | Basis::Sources => false,
            Basis::Orders => true,
        },
    }
}

// Does the name stand beforehand for what rests on the orders?
fn is_order(name: &Name) -> bool
    ensures { result ≡ is_order_name name.now }
{
    match Named::of(name) {
        Some(named) => rests_on_orders(named),
        None => false,
    }
}

// Is the leaf such a name?
fn leaf_names_order(leaf: &Leaf) -> bool
    ensures { result ≡ leaf_names leaf.now }
{
    match leaf {
        Leaf::Name(name) => is_order(name),
        Leaf::EmptyRelation => false,
        Leaf::EmptySet => false,
        Leaf::Universe => false,
    }
}

// Is there such a name at the node?
fn node_names_order(node: &Node) -> bool
    ensures { result ≡ node_names node.now }
{
    match node {
        Node::Leaf(leaf) => leaf_names_order(leaf),
        Node::Sign(_) => false,
        Node::Infix(_) => false,
        Node::Call(name, _) => is_order(name),
    }
}

// Is there one among the nodes?
fn nodes_name_order(nodes: &[Node]) -> bool
    ensures { result ≡ list_any node_names nodes.now }
{
    nodes.iter().any(node_names_order)
}

// Is there one in the expression?
#[tactic(auto, using(crate::proofs::Alike::nodes_told))]
fn names_order(expression: &Expression) -> bool
    ensures { result ≡ term_names_order (term_of expression.now) }
{
    nodes_name_order(&expression.nodes)
}

// Is there one in what a `let` binds, or in a function's body?
fn definitions_name_order(definitions: &[Definition]) -> bool
    ensures { result ≡ list_any (λ d. term_names_order (term_of d.value)) definitions.now }
{
    definitions
        .iter()
        .any(|definition| names_order(&definition.value))
}

// Is there one in what a `let rec` binds?
fn bindings_name_order(bindings: &[Binding]) -> bool
    ensures { result ≡ list_any (λ b. term_names_order (term_of b.value)) bindings.now }
{
    bindings.iter().any(|binding| names_order(&binding.value))
}

// Is there one in the item?
#[tactic(auto, using(crate::proofs::Alike::definitions_told, crate::proofs::Alike::bindings_told))]
fn item_names_order(item: &Item) -> bool
    ensures { result ≡ clause_names_order (clause_of item.now) }
{
    match item {
        Item::Let(definitions) => definitions_name_order(definitions),
        Item::LetRec(bindings) => bindings_name_order(bindings),
        Item::Check(check) => names_order(&check.expression),
        Item::Include(_) => false,
        Item::Show(_) => false,
        Item::Unshow(_) => false,
    }
}

// Is there one in the items?
fn items_name_order(items: &[Item]) -> bool
    ensures { result ≡ list_any (λ i. clause_names_order (clause_of i)) items.now }
{
    items.iter().any(item_names_order)
}

/// Is it known of a model that it says the same of executions that differ in their coherence orders alone? So it is where it names
/// nothing that rests on these.
pub fn is_orderless(model: &Model) -> bool
    ensures named { result ≡ names_no_order model.now.items }
    ensures orderless { IsTrue result → IsOrderless model.now.items }
{
    laws::bases();
    !items_name_order(model.items())
}
