//! Equality: true exactly of equal trees.

use crate::tree::{Binding, Check, Definition, Element, Item};
use wb_text::are_same;

impl PartialEq for Definition {
    ghost use Rattle.std.specs.Prelude.{◌≡◌, ◌↔◌, IsTrue};
    ghost use Rattle.std.specs.Cmp.{partial_equiv_from_equiv};
    ghost use Rattle.cat_tree.specs.Tree.{defined_of};
    ghost use Rattle.cat_tree.specs.Equality.{same_defined};
    ghost use Rattle.cat_tree.specs.Exact.{definition_equivalence};

    ghost eq = { λ a b. same_defined (defined_of a) (defined_of b) };

    ghost laws = { partial_equiv_from_equiv definition_equivalence };

    fn eq(&self, other: &Definition) -> bool
        ensures value { result ≡ same_defined (defined_of self.now) (defined_of other.now) }
        ensures exact { IsTrue result ↔ (defined_of self.now ≡ defined_of other.now) }
    {
        self.name == other.name
            && are_same(&self.parameters, &other.parameters)
            && self.value == other.value
    }
}

impl Eq for Definition {
    ghost use Rattle.cat_tree.specs.Exact.{definition_equivalence};

    ghost laws = { definition_equivalence };
}

impl PartialEq for Binding {
    ghost use Rattle.std.specs.Prelude.{◌≡◌, ◌↔◌, IsTrue};
    ghost use Rattle.std.specs.Cmp.{partial_equiv_from_equiv};
    ghost use Rattle.cat_tree.specs.Tree.{bound_of};
    ghost use Rattle.cat_tree.specs.Equality.{same_bound};
    ghost use Rattle.cat_tree.specs.Exact.{binding_equivalence};

    ghost eq = { λ a b. same_bound (bound_of a) (bound_of b) };

    ghost laws = { partial_equiv_from_equiv binding_equivalence };

    fn eq(&self, other: &Binding) -> bool
        ensures value { result ≡ same_bound (bound_of self.now) (bound_of other.now) }
        ensures exact { IsTrue result ↔ (bound_of self.now ≡ bound_of other.now) }
    {
        self.name == other.name && self.value == other.value
    }
}

impl Eq for Binding {
    ghost use Rattle.cat_tree.specs.Exact.{binding_equivalence};

    ghost laws = { binding_equivalence };
}

impl PartialEq for Check {
    ghost use Rattle.std.specs.Prelude.{◌≡◌, ◌↔◌, IsTrue};
    ghost use Rattle.std.specs.Cmp.{partial_equiv_from_equiv};
    ghost use Rattle.cat_tree.specs.Tree.{check_of};
    ghost use Rattle.cat_tree.specs.Equality.{same_clause};
    ghost use Rattle.cat_tree.specs.Exact.{check_equivalence};

    ghost eq = { λ a b. same_clause (check_of a) (check_of b) };

    ghost laws = { partial_equiv_from_equiv check_equivalence };

    fn eq(&self, other: &Check) -> bool
        ensures value { result ≡ same_clause (check_of self.now) (check_of other.now) }
        ensures exact { IsTrue result ↔ (check_of self.now ≡ check_of other.now) }
    {
        self.flag == other.flag
            && self.negated == other.negated
            && self.kind == other.kind
            && self.expression == other.expression
            && self.name == other.name
    }
}

impl Eq for Check {
    ghost use Rattle.cat_tree.specs.Exact.{check_equivalence};

    ghost laws = { check_equivalence };
}

impl PartialEq for Element {
    ghost use Rattle.std.specs.Prelude.{◌≡◌, ◌↔◌, IsTrue};
    ghost use Rattle.std.specs.Cmp.{partial_equiv_from_equiv};
    ghost use Rattle.cat_tree.specs.Tree.{shown_of};
    ghost use Rattle.cat_tree.specs.Equality.{same_shown};
    ghost use Rattle.cat_tree.specs.Exact.{element_equivalence};

    ghost eq = { λ a b. same_shown (shown_of a) (shown_of b) };

    ghost laws = { partial_equiv_from_equiv element_equivalence };

    fn eq(&self, other: &Element) -> bool
        ensures value { result ≡ same_shown (shown_of self.now) (shown_of other.now) }
        ensures exact { IsTrue result ↔ (shown_of self.now ≡ shown_of other.now) }
    {
        self.expression == other.expression && self.name == other.name
    }
}

impl Eq for Element {
    ghost use Rattle.cat_tree.specs.Exact.{element_equivalence};

    ghost laws = { element_equivalence };
}

impl PartialEq for Item {
    ghost use Rattle.std.specs.Prelude.{◌≡◌, ◌↔◌, IsTrue};
    ghost use Rattle.std.specs.Cmp.{partial_equiv_from_equiv};
    ghost use Rattle.cat_tree.specs.Tree.{clause_of};
    ghost use Rattle.cat_tree.specs.Equality.{same_clause};
    ghost use Rattle.cat_tree.specs.Exact.{item_equivalence};

    ghost eq = { λ a b. same_clause (clause_of a) (clause_of b) };

    ghost laws = { partial_equiv_from_equiv item_equivalence };

    #[tactic(auto, using(crate::proofs::Equal::defined_told, crate::proofs::Equal::bounds_told, crate::proofs::Equal::shown_told))]
    fn eq(&self, other: &Item) -> bool
        ensures value { result ≡ same_clause (clause_of self.now) (clause_of other.now) }
        ensures exact { IsTrue result ↔ (clause_of self.now ≡ clause_of other.now) }
    {
        match (self, other) {
            (Item::Let(a), Item::Let(b)) => are_same(a, b),
            (Item::LetRec(a), Item::LetRec(b)) => are_same(a, b),
            (Item::Check(a), Item::Check(b)) => a == b,
            (Item::Include(a), Item::Include(b)) => a == b,
            (Item::Show(a), Item::Show(b)) => are_same(a, b),
            (Item::Unshow(a), Item::Unshow(b)) => are_same(a, b),
            _ => false,
        }
    }
}

impl Eq for Item {
    ghost use Rattle.cat_tree.specs.Exact.{item_equivalence};

    ghost laws = { item_equivalence };
}
