//! The runs of a thread of C11 atomics.
#![tactic(auto)]

mod content;
mod fault;
mod idle;
mod initial;
pub mod laws;
mod progress;
mod reading;
mod running;
mod setting;
mod unroll;
mod ways;

pub use content::{Content, place_of};
pub use fault::{MOST_RUNS, RunFault};
pub use initial::initial_value;
pub use running::runs;
