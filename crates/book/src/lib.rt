//! The book of jobs, with the journal of every call.
#![tactic(auto)]

mod cutting;
mod given;
mod jobs;
mod kept;
mod limits;
mod live;
mod mark;
mod names;
mod plan;
mod reading;
mod slice;
mod workbench;

pub use given::GivenClaims;
pub use jobs::Job;
pub use journal::{
    Command, Entry, JobRow, Listing, Loaded, Refusal, Replacement, Reply, Returned, Said,
    SourceKind, Text,
};
pub use kept::{Book, Refused};
pub use limits::Limits;
pub use live::{Live, LiveClaims};
pub use mark::Mark;
pub use names::{TestSlot, Tests};
pub use plan::{Change, Plan};
pub use slice::Slice;
pub use workbench::Bench;
