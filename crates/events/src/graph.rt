//! Candidate executions.

ghost use Rattle.std.specs.Prelude.{◌≡◌};
ghost use Rattle.events.specs.Executions.{IsGraph};

use crate::event::EventId;
use crate::run::Run;
use std::marker::Model;

/// A coherence order: the writes of one location, the initial one first.
#[derive(Drop)]
pub struct Coherence {
    writes: Vec<EventId>,
}

impl Model for Coherence {
    ghost use Rattle.std.specs.Prelude.{List};
    ghost use Rattle.events.specs.declared.event.EventId.{EventId};

    ghost Value = { List EventId };

    ghost view = { λ o. o.writes.items };
}

impl Coherence {
    /// The order of these writes.
    pub fn new(writes: Vec<EventId>) -> Self
        ensures { result ≡ writes.items }
    {
        Coherence { writes }
    }

    /// The writes, in order.
    pub fn writes(&self) -> &[EventId]
        ensures { result.now ≡ self.now }
    {
        &self.writes
    }

    /// The writes, in order, in the vector that holds them.
    pub fn into_writes(self) -> Vec<EventId>
        ensures { result.items ≡ self }
    {
        self.writes
    }
}

/// The parts of a candidate execution: the initial value of each location, the run of each thread, the write that each
/// read reads from, and the coherence order of each location.
#[derive(Drop)]
pub struct GraphParts {
    pub init: Vec<u32>,
    pub runs: Vec<Run>,
    pub rf: Vec<EventId>,
    pub co: Vec<Coherence>,
}

/// A candidate execution. It has at most 64 events with its initial writes, and its maps name its own events.
pub struct Graph {
    init: Vec<u32>,
    runs: Vec<Run>,
    rf: Vec<EventId>,
    co: Vec<Coherence>,
}

// A function of its own: whoever holds one drops it by a call.
impl Drop for Graph {
    fn drop(self) {
        let Graph {
            init: _,
            runs: _,
            rf: _,
            co: _,
        } = self;
    }
}

impl Model for Graph {
    ghost use Rattle.events.specs.Executions.{GraphValue};

    ghost Value = { GraphValue };

    ghost use Rattle.events.specs.Executions.{IsGraph};

    ghost view = { λ g. record { init = g.init.items; runs = g.runs.items; rf = g.rf.items; co = g.co.items } };

    ghost invariant = { λ g. IsGraph (record { init = g.init.items; runs = g.runs.items; rf = g.rf.items; co = g.co.items }) };
}

impl Graph {
    /// The execution with these parts.
    pub fn new(init: Vec<u32>, runs: Vec<Run>, rf: Vec<EventId>, co: Vec<Coherence>) -> Self
        requires { IsGraph (record { init = init.items; runs = runs.items; rf = rf.items; co = co.items }) }
        ensures { result ≡ record { init = init.items; runs = runs.items; rf = rf.items; co = co.items } }
    {
        Graph { init, runs, rf, co }
    }

    /// The initial value of each location.
    pub fn init(&self) -> &[u32]
        ensures { result.now ≡ self.now.init }
    {
        &self.init
    }

    /// The run of each thread.
    pub fn runs(&self) -> &[Run]
        ensures value { result.now ≡ self.now.runs }
        ensures graph { IsGraph self.now }
    {
        &self.runs
    }

    /// The write that each read reads from, thread by thread, in program order.
    pub fn rf(&self) -> &[EventId]
        ensures { result.now ≡ self.now.rf }
    {
        &self.rf
    }

    /// The coherence order of each location.
    pub fn co(&self) -> &[Coherence]
        ensures { result.now ≡ self.now.co }
    {
        &self.co
    }

    /// The parts of the execution.
    pub fn into_parts(self) -> GraphParts
        ensures parts { self ≡ record { init = result.init.items; runs = result.runs.items; rf = result.rf.items; co = result.co.items } }
        ensures graph { IsGraph self }
    {
        let Graph { init, runs, rf, co } = self;
        GraphParts { init, runs, rf, co }
    }
}
