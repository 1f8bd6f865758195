//! What holds of the definitions alone.

ghost use Rattle.c11_threads.specs.Unrolled.{Listing};
ghost use Rattle.c11_threads.specs.Bounds.{Bounding, Keeping, Depends};
ghost use Rattle.c11_threads.specs.RunExamples.{BranchingRuns, ExchangeRuns, AdditionRuns};

/// The runs of a thread as a list are its runs, each once.
pub fn listing()
    ensures { Listing }
{}

/// A run has no more events than its program on its longest way, each a fence or at a location of
/// the test.
pub fn bounding()
    ensures { Bounding }
{}

/// Every value of a run is a value of the test.
pub fn keeping()
    ensures { Keeping }
{}

/// What an event of a run depends on are reads before it.
pub fn depending()
    ensures { Depends }
{}

/// The runs of a branch, of an exchange and of an addition, computed from the definitions.
pub fn examples()
    ensures branch { BranchingRuns }
    ensures exchange { ExchangeRuns }
    ensures addition { AdditionRuns }
{}
