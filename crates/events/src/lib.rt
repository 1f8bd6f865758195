//! Events, the runs of threads, candidate executions, and the named sets and relations of one.
#![tactic(auto)]

mod cut;
mod event;
mod graph;
pub mod laws;
mod named;
mod run;
mod view;

pub use cut::{Cut, Excerpt, Part};
pub use event::{Access, Event, EventId, Order, no_places};
pub use graph::{Coherence, Graph, GraphParts};
pub use named::{Basis, RelName, SetName};
pub use run::{Run, copy_events, copy_runs};
pub use view::{GraphView, SourcedStructure, event_names};
