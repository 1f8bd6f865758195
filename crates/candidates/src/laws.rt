//! What holds of the definitions alone.

ghost use Rattle.candidates.specs.Candidates.{Numbering, Counting};

/// Each execution of a test stands at exactly one number below the test's size, and nothing else
/// stands at a number.
pub fn numbering()
    ensures { Numbering }
{}

/// What stands at the numbers below a test's size is each of its executions, once.
pub fn counting()
    ensures { Counting }
{}
