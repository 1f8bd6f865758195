//! Workers: threads that claim, evaluate and return over a desk.
#![tactic(auto)]

mod calls;
pub mod laws;
mod threads;
mod working;

pub use calls::{Calls, Claimed};
pub use threads::{Report, work_until_closed, work_until_idle};
pub use working::{Form, Gate, Turn, work};
