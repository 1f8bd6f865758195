//! What holds of the definitions alone.

ghost use Rattle.litmus_value.specs.ValueExamples.{TwoSums, TwoAdds, NineValues, SeventeenValues, AddAlone, AddBesideConstant};

/// The values of tests that add, computed from the definitions.
pub fn examples()
    ensures sums { TwoSums }
    ensures two_adds { TwoAdds }
    ensures nine { NineValues }
    ensures seventeen { SeventeenValues }
    ensures alone { AddAlone }
    ensures beside { AddBesideConstant }
{}
