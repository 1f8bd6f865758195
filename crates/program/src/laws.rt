//! What holds of the words of a command line.

ghost use Rattle.std.specs.Prelude.{◌≡◌, [], ◌∷◌, List, codes};
ghost use Rattle.clap.specs.Words.{Text, fault_of};
ghost use Rattle.clap.specs.declared.error.kind.ErrorKind.TheVariants as kind;
ghost use Rattle.program.specs.Words.{AsksFor, bench};
ghost use Rattle.program.specs.declared.command_line.Task.{Task};
ghost use Rattle.program.specs.declared.command_line.Task.TheVariants.{Alone, Script};

/// Words ask for one task at most.
pub fn one_task()
    ensures { (words : List Text) (s t : Task) → AsksFor words s → AsksFor words t → s ≡ t }
{}

/// Some words, and what they ask for.
pub fn tasks()
    ensures alone { AsksFor (codes "bench" ∷ codes "--alone" ∷ []) Alone }
    ensures script { AsksFor (codes "bench" ∷ []) (Script 100000 0) }
    ensures journal { AsksFor (codes "bench" ∷ codes "--journal" ∷ codes "5" ∷ []) (Script 5 0) }
    ensures attached { AsksFor (codes "bench" ∷ codes "--journal=5" ∷ []) (Script 5 0) }
    ensures workers { AsksFor (codes "bench" ∷ codes "--workers=4" ∷ codes "--journal=5" ∷ []) (Script 5 4) }
    ensures both { AsksFor (codes "bench" ∷ codes "--journal=5" ∷ codes "--alone" ∷ []) Alone }
{}

/// Some words that are refused, and the kinds of error.
pub fn faults()
    ensures no_value { fault_of bench (codes "bench" ∷ codes "--journal" ∷ [])
        ≡ kind.InvalidValue ∷ [] }
    ensures zero { fault_of bench (codes "bench" ∷ codes "--journal=0" ∷ [])
        ≡ kind.ValueValidation ∷ [] }
    ensures too_many { fault_of bench (codes "bench" ∷ codes "--journal=1000001" ∷ [])
        ≡ kind.ValueValidation ∷ [] }
    ensures nine_workers { fault_of bench (codes "bench" ∷ codes "--workers=9" ∷ [])
        ≡ kind.ValueValidation ∷ [] }
    ensures flag_value { fault_of bench (codes "bench" ∷ codes "--alone=yes" ∷ [])
        ≡ kind.TooManyValues ∷ [] }
    ensures twice { fault_of bench (codes "bench" ∷ codes "--alone" ∷ codes "--alone" ∷ [])
        ≡ kind.ArgumentConflict ∷ [] }
    ensures unknown { fault_of bench (codes "bench" ∷ codes "--nothing" ∷ [])
        ≡ kind.UnknownArgument ∷ [] }
    ensures stray { fault_of bench (codes "bench" ∷ codes "script" ∷ [])
        ≡ kind.UnknownArgument ∷ [] }
    ensures help { fault_of bench (codes "bench" ∷ codes "--help" ∷ [])
        ≡ kind.DisplayHelp ∷ [] }
{}
