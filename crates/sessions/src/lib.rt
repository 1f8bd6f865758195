//! Sessions of several threads over one book, each with a pass, and the journal that they share.
#![tactic(auto)]

mod desks;
mod ending;
mod passes;

pub use desks::{Desk, Shared, open};
pub use ending::{Closed, FinishCause, FinishFault, finish};
pub use passes::{Counts, Pass, Receipt};
