//! Equality of tests: two are equal where their trees are, which their keys tell.

ghost use Rattle.std.specs.Prelude.{◌≡◌, ◌↔◌, IsTrue};
ghost use Rattle.std.specs.Cmp.{partial_equiv_from_equiv};
ghost use Rattle.litmus_tree.specs.Equality.{same_litmus};
ghost use Rattle.litmus_tree.specs.Exact.{litmus_equivalence};

use crate::test::Test;

impl PartialEq for Test {
    ghost eq = { same_litmus };

    ghost laws = { partial_equiv_from_equiv litmus_equivalence };

    #[tactic(auto, using(litmus_tree::specs::Exact::litmus_exact))]
    fn eq(&self, other: &Test) -> bool
        ensures value { result ≡ same_litmus self.now other.now }
        ensures exact { IsTrue result ↔ (self.now ≡ other.now) }
    {
        self.has_key_of(other)
    }
}

impl Test {
    fn has_key_of(&self, other: &Test) -> bool
        ensures { result ≡ same_litmus self.now other.now }
    {
        self.parts.key == other.parts.key
    }
}

impl Eq for Test {
    ghost laws = { litmus_equivalence };
}
