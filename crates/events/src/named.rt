//! The names that a cat model can use without binding them.

ghost use Rattle.std.specs.Prelude.{◌≡◌};
ghost use Rattle.events.specs.Bases.{basis_of};

/// A named set of events. `IW` and `I` are two names of one set, and so of one variant. The sign `_`, for all
/// events, is an expression of its own and has no variant.
#[derive(Clone, Copy, Debug, PartialEq, Eq)]
pub enum SetName {
    /// `W`: the writes, with the initial ones.
    Writes,
    /// `R`: the reads.
    Reads,
    /// `F`: the fences.
    Fences,
    /// `M`: the reads and the writes.
    Memory,
    /// `IW` and `I`: the initial writes.
    InitialWrites,
    /// `A`: the reads and writes of atomic calls.
    Atomic,
    /// `NA`: the plain accesses.
    Plain,
    /// `RLX`: the events with the order relaxed.
    Relaxed,
    /// `ACQ`: the events with the order acquire.
    Acquire,
    /// `REL`: the events with the order release.
    Release,
    /// `ACQ_REL`: the events with the order acquire and release.
    AcquireRelease,
    /// `SC`: the events with the order sequentially consistent.
    SeqCst,
    /// `RMW`: both events of each exchange and of each addition.
    Exchanges,
}

/// A named relation over events.
#[derive(Clone, Copy, Debug, PartialEq, Eq)]
pub enum RelName {
    /// `po`: program order.
    Po,
    /// `int`: the pairs of one thread, and the pairs of initial writes.
    Int,
    /// `ext`: the other pairs.
    Ext,
    /// `loc`: the pairs of memory events of one location.
    Loc,
    /// `po-loc`: program order between memory events of one location.
    PoLoc,
    /// `rf`: reads-from.
    Rf,
    /// `co`: coherence.
    Co,
    /// `fr`: from-reads.
    Fr,
    /// `rfi`: reads-from within `int`.
    Rfi,
    /// `coi`: coherence within `int`.
    Coi,
    /// `fri`: from-reads within `int`.
    Fri,
    /// `rfe`: reads-from within `ext`.
    Rfe,
    /// `coe`: coherence within `ext`.
    Coe,
    /// `fre`: from-reads within `ext`.
    Fre,
    /// `rmw`: from the read to the write of each exchange and of each addition.
    Rmw,
    /// `data`: data dependencies.
    Data,
    /// `ctrl`: control dependencies.
    Ctrl,
    /// `addr`: address dependencies, of which C tests of this profile have none.
    Addr,
    /// `id`: each event with itself.
    Id,
}

/// What a named relation rests on; each includes those before it.
#[derive(Clone, Copy, Debug, PartialEq, Eq)]
pub enum Basis {
    /// The initial values and the runs of the threads alone.
    Runs,
    /// The read-from map, too.
    Sources,
    /// The coherence orders, too.
    Orders,
}

impl RelName {
    /// What the relation of this name rests on.
    pub fn basis(self) -> Basis
        ensures { result ≡ basis_of self }
    {
        match self {
            RelName::Po
            | RelName::Int
            | RelName::Ext
            | RelName::Loc
            | RelName::PoLoc
            | RelName::Rmw
            | RelName::Data
            | RelName::Ctrl
            | RelName::Addr
            | RelName::Id => Basis::Runs,
            RelName::Rf | RelName::Rfi | RelName::Rfe => Basis::Sources,
            RelName::Co | RelName::Fr | RelName::Coi | RelName::Fri | RelName::Coe | RelName::Fre =>
                Basis::Orders,
        }
    }
}
