//! Tests of conditions, the runs of threads and candidate executions, by public items alone.

mod blocks;
mod executions;
mod growth;
mod opened;
mod placed;
mod runs;
pub mod states;
mod texts;
