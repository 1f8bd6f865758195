//! What holds of the definitions alone.

ghost use Rattle.world.specs.Examples.{LateReturn, LostWorker, ReplacedReturn, WholeWay};
ghost use Rattle.world.specs.Histories.{CountedOnce, OwnWork, SlicesOnce, TakenOnce, VerdictsStay, VersionsTell};
ghost use Rattle.world.specs.Merging.{MergedVerdict, OneVerdict};
ghost use Rattle.world.specs.World.{SoundWorld};

/// After every list of events from the empty world the journal is legal and leads to the book's workbench; the results are
/// those of the returned slices, each once, and right; and so is each verdict.
pub fn world()
    ensures { SoundWorld }
{}

/// No slice is counted twice: of each there is one result at most.
pub fn counted_once()
    ensures { CountedOnce }
{}

/// Under a claim a result is taken once at most.
pub fn taken_once()
    ensures { TakenOnce }
{}

/// No result of another work counts, nor one of a version that is replaced by then.
pub fn own_work()
    ensures { OwnWork }
{}

/// No slice of a job is taken twice, in any legal journal.
pub fn slices_once()
    ensures { SlicesOnce }
{}

/// A verdict, once replied, never changes.
pub fn verdicts_stay()
    ensures { VerdictsStay }
{}

/// Two verdicts for one version of a test under one set of file versions say the same.
pub fn versions_tell()
    ensures { VersionsTell }
{}

/// What is put together of a right result for each slice is a right verdict.
pub fn merged_verdict()
    ensures { MergedVerdict }
{}

/// Two right verdicts of a test under a model are equal.
pub fn one_verdict()
    ensures { OneVerdict }
{}

/// An example: a worker that vanishes keeps its claim until it is released.
pub fn lost_worker()
    ensures { LostWorker }
{}

/// An example: a return after a release is refused, and that of the second claim is taken once.
pub fn late_return()
    ensures { LateReturn }
{}

/// An example: a return after a replacement is refused, and ends the claim.
pub fn replaced_return()
    ensures { ReplacedReturn }
{}

/// An example: of two workers one is lost, and the verdict is put together of two results.
pub fn whole_way()
    ensures { WholeWay }
{}
