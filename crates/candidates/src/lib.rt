//! The numbered candidate executions of a test.
#![tactic(auto)]

mod assembly;
mod block;
mod capped;
mod choosing;
mod counts;
mod depths;
mod fault;
mod groups;
mod impossible;
pub mod laws;
mod levels;
mod open_orders;
mod ordering;
mod page;
mod reading;
mod space;
mod threads;
mod walk;

pub use assembly::{nothing, write_value};
pub use block::Block;
pub use fault::SpaceFault;
pub use open_orders::{Open, OpenOrders};
pub use space::Space;
pub use walk::{PausedWalk, Walk};
