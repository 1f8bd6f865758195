//! Laws of what stands in an entry. They have no effect.

ghost use Rattle.std.specs.Prelude.{◌≡◌, ◌↔◌, IsTrue};
ghost use Rattle.journal.specs.Equality.{same_returned, same_command, same_said, same_replacement, same_refusal, same_loaded, same_row, same_reply};
ghost use Rattle.journal.specs.declared.records.Returned.{Returned};
ghost use Rattle.journal.specs.declared.records.Command.{Command};
ghost use Rattle.journal.specs.declared.records.Said.{Said};
ghost use Rattle.journal.specs.declared.records.Replacement.{Replacement};
ghost use Rattle.journal.specs.declared.records.Refusal.{Refusal};
ghost use Rattle.journal.specs.declared.listing.Loaded.{Loaded};
ghost use Rattle.journal.specs.declared.listing.JobRow.{JobRow};
ghost use Rattle.journal.specs.declared.records.Reply.{Reply};

/// The tests of equality that are derived are true exactly of equal values.
pub fn exact_equality()
    ensures returned { (a b : Returned) → IsTrue (same_returned a b) ↔ (a ≡ b) }
    ensures commands { (a b : Command) → IsTrue (same_command a b) ↔ (a ≡ b) }
    ensures said { (a b : Said) → IsTrue (same_said a b) ↔ (a ≡ b) }
    ensures replacements { (a b : Replacement) → IsTrue (same_replacement a b) ↔ (a ≡ b) }
    ensures refusals { (a b : Refusal) → IsTrue (same_refusal a b) ↔ (a ≡ b) }
    ensures loaded { (a b : Loaded) → IsTrue (same_loaded a b) ↔ (a ≡ b) }
    ensures rows { (a b : JobRow) → IsTrue (same_row a b) ↔ (a ≡ b) }
    ensures replies { (a b : Reply) → IsTrue (same_reply a b) ↔ (a ≡ b) }
{}
