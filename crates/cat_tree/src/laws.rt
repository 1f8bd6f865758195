//! Laws of the definitions. They have no effect.

ghost use Rattle.std.specs.Prelude.{◌≡◌, ◌↔◌, IsTrue, ℕ, List};
ghost use Rattle.cat_tree.specs.Equality.{same_term, same_defined, same_bound, same_shown, same_kind, same_clause, same_file};
ghost use Rattle.cat_tree.specs.Spellings.{spelled_term, spelled_defined, spelled_bound, spelled_shown, spelled_clause};
ghost use Rattle.cat_tree.specs.Tree.{Term, Defined, Bound, Shown, Clause, File};
ghost use Rattle.cat_tree.specs.declared.tree.CheckKind.{CheckKind};

/// The tests of equality are true exactly of equal trees.
pub fn exact_equality()
    ensures expressions { (a b : Term) → IsTrue (same_term a b) ↔ (a ≡ b) }
    ensures definitions { (a b : Defined) → IsTrue (same_defined a b) ↔ (a ≡ b) }
    ensures bindings { (a b : Bound) → IsTrue (same_bound a b) ↔ (a ≡ b) }
    ensures elements { (a b : Shown) → IsTrue (same_shown a b) ↔ (a ≡ b) }
    ensures kinds { (a b : CheckKind) → IsTrue (same_kind a b) ↔ (a ≡ b) }
    ensures items { (a b : Clause) → IsTrue (same_clause a b) ↔ (a ≡ b) }
    ensures files { (a b : File) → IsTrue (same_file a b) ↔ (a ≡ b) }
{}

/// What is written of a tree in a key tells it, and what lay below it.
pub fn exact_spelling()
    ensures expressions { (a b : Term) (s t : List ℕ) → spelled_term.over a s ≡ spelled_term.over b t → (a ≡ b) × (s ≡ t) }
    ensures definitions { (a b : Defined) (s t : List ℕ) → spelled_defined.over a s ≡ spelled_defined.over b t → (a ≡ b) × (s ≡ t) }
    ensures bindings { (a b : Bound) (s t : List ℕ) → spelled_bound.over a s ≡ spelled_bound.over b t → (a ≡ b) × (s ≡ t) }
    ensures elements { (a b : Shown) (s t : List ℕ) → spelled_shown.over a s ≡ spelled_shown.over b t → (a ≡ b) × (s ≡ t) }
    ensures items { (a b : Clause) (s t : List ℕ) → spelled_clause.over a s ≡ spelled_clause.over b t → (a ≡ b) × (s ≡ t) }
{}
