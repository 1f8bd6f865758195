//! What holds of final states and of the observed places.

ghost use Rattle.std.specs.Prelude.{◌≡◌, ◌↔◌, ℕ, IsTrue, List, map};
ghost use Rattle.listings.specs.Lists.{IsIn, NoRepeats};
ghost use Rattle.conditions.specs.Conditions.{Formula, Condition};
ghost use Rattle.conditions.specs.Spellings.{spelled_place, spelled_binding, spelled_condition};
ghost use Rattle.conditions.specs.Equality.{same_place, same_binding, same_formula, same_condition};
ghost use Rattle.conditions.specs.States.{bindings, value_at, holds_in, Mentions, AreObserved};
ghost use Rattle.conditions.specs.declared.place.Binding.{Binding};
ghost use Rattle.conditions.specs.declared.place.Place.{Place};

/// A condition and a list have one list of observed places.
pub fn observed_places()
    ensures { (condition : Condition) (listed xs ys : List Place) → AreObserved condition listed xs → AreObserved condition listed ys → xs ≡ ys }
{}

/// What is observed of a state decides the proposition.
pub fn observed_values()
    ensures { (condition : Condition) (listed places : List Place) (state : List Binding) → AreObserved condition listed places → holds_in (bindings places (map (value_at state) places)) condition.formula ≡ holds_in state condition.formula }
{}

/// Places that are listed with their values have them.
pub fn listed_values()
    ensures { (places : List Place) (value : Place → ℕ) (p : Place) → IsIn p places → value_at (bindings places (map value places)) p ≡ value p }
{}

/// A place that a state binds once has its value, and one that it doesn't bind has 0.
pub fn bound_values()
    ensures bound { (state : List Binding) (b : Binding) → NoRepeats (map (λ c. c.place) state) → IsIn b state → value_at state b.place ≡ b.value }
    ensures unbound { (state : List Binding) (p : Place) → ¬ IsIn p (map (λ c. c.place) state) → value_at state p ≡ 0 }
{}

/// States that give the places of a proposition the same values agree on it.
pub fn same_values()
    ensures { (a : Formula) (s t : List Binding) → ((p : Place) → Mentions a p → value_at s p ≡ value_at t p) → holds_in s a ≡ holds_in t a }
{}

/// The tests of equality are true exactly of equal values.
pub fn exact_equality()
    ensures places { (a b : Place) → IsTrue (same_place a b) ↔ (a ≡ b) }
    ensures bindings { (a b : Binding) → IsTrue (same_binding a b) ↔ (a ≡ b) }
    ensures formulas { (a b : Formula) → IsTrue (same_formula a b) ↔ (a ≡ b) }
    ensures conditions { (a b : Condition) → IsTrue (same_condition a b) ↔ (a ≡ b) }
{}

/// What is written of a value in a key tells it, and what lay below it.
pub fn exact_spelling()
    ensures places { (a b : Place) (s t : List ℕ) → spelled_place.over a s ≡ spelled_place.over b t → (a ≡ b) × (s ≡ t) }
    ensures bindings { (a b : Binding) (s t : List ℕ) → spelled_binding.over a s ≡ spelled_binding.over b t → (a ≡ b) × (s ≡ t) }
    ensures conditions { (a b : Condition) (s t : List ℕ) → spelled_condition.over a s ≡ spelled_condition.over b t → (a ≡ b) × (s ≡ t) }
{}
