//! The table of named sets and relations: what each asks of an event, or of two events.

ghost use Rattle.std.specs.Prelude.{◌↔◌, IsTrue};
ghost use Rattle.events.specs.Named.{InSet, InRel};
ghost use Rattle.events.specs.Rows.{name_of};

use super::numbered::Numbered;
use crate::event::{Access, EventId, Order};
use crate::named::SetName;

/// The relations of which two events tell by themselves whether they are in: each is tested pair by pair.
#[derive(Clone, Copy)]
pub(super) enum Pairwise {
    Rmw,
    Data,
    Ctrl,
}

// One row for each name: what it asks.
macro_rules! table {
    ($name:expr, $names:ident; $($row:ident: $test:expr;)*) => {
        match $name {
            $($names::$row => $test,)*
        }
    };
}

impl Numbered<'_> {
    /// Is the event in the set of this name?
    pub(super) fn is_in(&self, name: SetName, event: EventId) -> bool
        ensures { IsTrue result ↔ InSet self.now name event }
    {
        let graph = self.graph;
        table! { name, SetName;
            Writes: graph.access(event).is_write();
            Reads: graph.access(event).is_read();
            Fences: graph.access(event) == Access::Fence;
            Memory: graph.is_memory(event);
            InitialWrites: event.is_initial();
            Atomic: graph.is_memory(event) && graph.order(event).is_of_call();
            Plain: graph.is_memory(event) && graph.order(event) == Order::Na;
            Relaxed: graph.order(event) == Order::Rlx;
            Acquire: graph.order(event) == Order::Acq;
            Release: graph.order(event) == Order::Rel;
            AcquireRelease: graph.order(event) == Order::AcqRel;
            SeqCst: graph.order(event) == Order::Sc;
            Exchanges: graph.access(event).is_of_exchange();
        }
    }

    /// Is the pair of events in the relation?
    pub(super) fn is_related(&self, name: Pairwise, from: EventId, to: EventId) -> bool
        ensures { IsTrue result ↔ InRel self.now (name_of name) from to }
    {
        let graph = self.graph;
        table! { name, Pairwise;
            Rmw: graph.is_exchange(from, to);
            Data: graph.is_data_dependency(from, to);
            Ctrl: graph.is_control_dependency(from, to);
        }
    }
}
