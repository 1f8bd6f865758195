//! What holds of the definitions alone.

ghost use Rattle.std.specs.Prelude.{◌≡◌, ℕ, List};
ghost use Rattle.keys.specs.Spelling.{spelled_number, spelled_bytes, spelled_list};
ghost use Rattle.keys.specs.SpellingExamples.{SmallNumber, GreatNumber, NameOfTwo, ListOfPairs};

/// What is written of a number, of a name or of a list of names tells it, and what lay below it.
pub fn exact_spelling()
    ensures numbers { (n m : ℕ) (s t : List ℕ) → spelled_number.over n s ≡ spelled_number.over m t → (n ≡ m) × (s ≡ t) }
    ensures names { (x y s t : List ℕ) → spelled_bytes.over x s ≡ spelled_bytes.over y t → (x ≡ y) × (s ≡ t) }
    ensures lists { (xs ys : List (List ℕ)) (s t : List ℕ) → (spelled_list spelled_bytes).over xs s ≡ (spelled_list spelled_bytes).over ys t → (xs ≡ ys) × (s ≡ t) }
{}

/// Values as they are written, computed from the definitions.
pub fn examples()
    ensures small { SmallNumber }
    ensures great { GreatNumber }
    ensures name { NameOfTwo }
    ensures pairs { ListOfPairs }
{}
