//! What holds of the events of the first accesses.

ghost use Rattle.std.specs.Prelude.{◌≡◌, ◌≤◌, ℕ};
ghost use Rattle.litmus_tree.specs.Tree.{Steps};
ghost use Rattle.litmus_value.specs.Limits.{steps_events};
ghost use Rattle.test_places.specs.Accesses.{steps_accesses, steps_among};

/// Where no access counts there are no events; with further ones there are no fewer; and where all count, these are the events that the limit speaks of.
pub fn counted_events()
    ensures none { (ss : Steps) → steps_among 0 ss ≡ 0 }
    ensures further { (ss : Steps) (m n : ℕ) → m ≤ n → steps_among m ss ≤ steps_among n ss }
    ensures all { (ss : Steps) (n : ℕ) → steps_accesses ss ≤ n → steps_among n ss ≡ steps_events ss }
{}
