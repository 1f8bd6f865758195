//! Equality of propositions: two are equal where their formulas are.

ghost use Rattle.std.specs.Prelude.{◌≡◌, ◌↔◌, IsTrue, map};
ghost use Rattle.std.specs.Cmp.{partial_equiv_from_equiv};
ghost use Rattle.conditions.specs.Chains.{same_growth, same_growths};
ghost use Rattle.conditions.specs.Conditions.{atomic, growth_of, formula_of};
ghost use Rattle.conditions.specs.Equality.{same_formula};
ghost use Rattle.conditions.specs.Exact.{prop_equivalence};

use crate::prop::{Atom, Link, Prop};

impl PartialEq for Prop {
    ghost eq = { λ a b. same_formula (formula_of a) (formula_of b) };

    ghost laws = { partial_equiv_from_equiv prop_equivalence };

    #[tactic(auto, using(crate::specs::Exact::formula_exact))]
    fn eq(&self, other: &Prop) -> bool
        ensures value { result ≡ same_formula (formula_of self.now) (formula_of other.now) }
        ensures exact { IsTrue result ↔ (formula_of self.now ≡ formula_of other.now) }
    {
        self.has_links_of(other)
    }
}

impl Eq for Prop {
    ghost laws = { prop_equivalence };
}

impl Atom {
    fn is_atom(&self, other: &Atom) -> bool
        ensures { result ≡ same_formula (atomic self.now) (atomic other.now) }
    {
        match (self, other) {
            (Atom::True, Atom::True) | (Atom::False, Atom::False) => true,
            (Atom::Equals(place, value), Atom::Equals(other_place, other_value)) => {
                place == other_place && value == other_value
            }
            _ => false,
        }
    }
}

impl Prop {
    #[cycle(comparing)]
    fn has_links_of(&self, other: &Prop) -> bool
        ensures { result ≡ same_formula (formula_of self.now) (formula_of other.now) }
    {
        self.first.is_atom(&other.first) && are_same_links(&self.rest, &other.rest)
    }
}

/// Compares one by one. It isn't the comparison of slices, since a link's own comparison calls it.
#[cycle(comparing)]
#[tactic(auto, using(crate::proofs::Links::links_differ))]
fn are_same_links(links: &Vec<Link>, others: &Vec<Link>) -> bool
    ensures { result ≡ same_growths (map growth_of links.now.items) (map growth_of others.now.items) }
{
    if links.len() != others.len() {
        return false;
    }
    for i in 0..links.len() {
        if !links[i].is_link(&others[i]) {
            return false;
        }
    }
    true
}

impl Link {
    #[cycle(comparing)]
    #[tactic(auto, using(crate::specs::Chains::join_is))]
    fn is_link(&self, other: &Link) -> bool
        ensures { result ≡ same_growth (growth_of self.now) (growth_of other.now) }
    {
        match (self, other) {
            (Link::Not, Link::Not) => true,
            (Link::Join(connective, operand), Link::Join(other_connective, other_operand)) => {
                connective == other_connective && operand.has_links_of(other_operand)
            }
            _ => false,
        }
    }
}
