//! Why a verdict is what it is: executions that show it, and what forbids the others.
#![tactic(auto)]

mod cycles;
mod explaining;
mod judge;
mod labelling;
mod reasons;
mod search;

pub use cycles::shortest_cycle;
pub use explaining::reason;
pub use labelling::labels;
pub use reasons::{Evidence, Reason};
pub use search::{closest, witness};
