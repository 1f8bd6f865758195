//! What holds of the trees.

ghost use Rattle.std.specs.Prelude.{◌≡◌, ◌↔◌, IsTrue, ℕ, List};
ghost use Rattle.litmus_tree.specs.Equality.{same_parameter, same_term, same_action, same_right, same_declared, same_step, same_program, same_litmus};
ghost use Rattle.litmus_tree.specs.Spellings.{spelled_parameter, spelled_declared, spelled_program, spelled_litmus};
ghost use Rattle.litmus_tree.specs.Tree.{Term, Action, Right, Declared, Step, Program, Litmus};
ghost use Rattle.litmus_tree.specs.declared.tree.Parameter.{Parameter};

/// The tests of equality are true exactly of equal trees.
pub fn exact_equality()
    ensures parameters { (a b : Parameter) → IsTrue (same_parameter a b) ↔ (a ≡ b) }
    ensures expressions { (a b : Term) → IsTrue (same_term a b) ↔ (a ≡ b) }
    ensures calls { (a b : Action) → IsTrue (same_action a b) ↔ (a ≡ b) }
    ensures right_sides { (a b : Right) → IsTrue (same_right a b) ↔ (a ≡ b) }
    ensures declarators { (a b : Declared) → IsTrue (same_declared a b) ↔ (a ≡ b) }
    ensures statements { (a b : Step) → IsTrue (same_step a b) ↔ (a ≡ b) }
    ensures threads { (a b : Program) → IsTrue (same_program a b) ↔ (a ≡ b) }
    ensures tests { (a b : Litmus) → IsTrue (same_litmus a b) ↔ (a ≡ b) }
{}

/// What is written of a tree in a key tells it, and what lay below it.
pub fn exact_spelling()
    ensures parameters { (a b : Parameter) (s t : List ℕ) → spelled_parameter.over a s ≡ spelled_parameter.over b t → (a ≡ b) × (s ≡ t) }
    ensures declarators { (a b : Declared) (s t : List ℕ) → spelled_declared.over a s ≡ spelled_declared.over b t → (a ≡ b) × (s ≡ t) }
    ensures threads { (a b : Program) (s t : List ℕ) → spelled_program.over a s ≡ spelled_program.over b t → (a ≡ b) × (s ≡ t) }
    ensures tests { (a b : Litmus) (s t : List ℕ) → spelled_litmus.over a s ≡ spelled_litmus.over b t → (a ≡ b) × (s ≡ t) }
{}
