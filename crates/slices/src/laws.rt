//! What holds of the definitions alone.

ghost use Rattle.slices.specs.Tallies.{CutsInOrder};

/// The slices of a cut follow one another from 0 to the size.
pub fn cuts()
    ensures { CutsInOrder }
{}
