//! What holds of the definitions alone.

ghost use Rattle.events.specs.Bases.{CountsRestOnRuns, PlainIsLike, SetsRestOnRuns, RelationsRestOnRuns, RelationsRestOnSources};
ghost use Rattle.events.specs.Extends.{SetsStay, RelationsStay, RelationsGrow, PartsAreGraphs};
ghost use Rattle.events.specs.Named.{Numbering};
ghost use Rattle.events.specs.Opened.{RelationsAreWithin, OneSourced, SetsAreDecided, RelationsAreDecided};

/// The events of an execution have the numbers below its count, each one number.
pub fn numbering()
    ensures { Numbering }
{}

/// Executions that have what a name rests on have the same set or relation of this name, and those of one structure have as many events.
pub fn bases()
    ensures counts { CountsRestOnRuns }
    ensures plain { PlainIsLike }
    ensures sets { SetsRestOnRuns }
    ensures runs { RelationsRestOnRuns }
    ensures sources { RelationsRestOnSources }
{}

/// An execution has the same sets as what it goes on from, the same relations that rest on the runs, and no fewer pairs in the others; and what
/// a graph goes on from is a graph.
pub fn extension()
    ensures sets { SetsStay }
    ensures stay { RelationsStay }
    ensures grow { RelationsGrow }
    ensures graph { PartsAreGraphs }
{}

/// An execution has no pair in a relation that what it is within hasn't, and differs from that in its coherence orders alone; and of each event
/// and of each pair of events it is decided whether it is in the set or in the relation of a name.
pub fn opening()
    ensures within { RelationsAreWithin }
    ensures sourced { OneSourced }
    ensures sets { SetsAreDecided }
    ensures relations { RelationsAreDecided }
{}
