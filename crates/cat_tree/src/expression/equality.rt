//! Equality of expressions: two are equal where their terms are.

ghost use Rattle.std.specs.Prelude.{◌≡◌, ◌↔◌, IsTrue};
ghost use Rattle.std.specs.Cmp.{partial_equiv_from_equiv};
ghost use Rattle.cat_tree.specs.Tree.{term_of};
ghost use Rattle.cat_tree.specs.Equality.{same_term};
ghost use Rattle.cat_tree.specs.Exact.{expression_equivalence};

use crate::expression::Expression;
use wb_text::are_same;

impl PartialEq for Expression {
    ghost eq = { λ a b. same_term (term_of a) (term_of b) };

    ghost laws = { partial_equiv_from_equiv expression_equivalence };

    /// It does not recurse: a loop goes over the nodes.
    fn eq(&self, other: &Expression) -> bool
        ensures value { result ≡ same_term (term_of self.now) (term_of other.now) }
        ensures exact { IsTrue result ↔ (term_of self.now ≡ term_of other.now) }
    {
        are_same(&self.nodes, &other.nodes)
    }
}

impl Eq for Expression {
    ghost laws = { expression_equivalence };
}
