//! What holds of the definitions alone.

ghost use Rattle.std.specs.Prelude.{ℕ, List};
ghost use Rattle.scripts.specs.Spelled.{Begins, IsBad};
ghost use Rattle.scripts.specs.declared.instruction.Instruction.{Instruction};

/// A bad line begins no instruction. So a script that has one is never read to its end.
pub fn bad_lines()
    ensures { (line : List ℕ) (instruction : Instruction) → IsBad line → ¬ Begins line instruction }
{}
