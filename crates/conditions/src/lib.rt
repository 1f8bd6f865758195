//! The condition of a test: places, propositions and final states.
#![tactic(auto)]

mod condition;
pub mod laws;
mod observing;
mod place;
mod prop;
mod spelling;
mod state;

pub use condition::{Cond, Kind};
pub use observing::observed;
pub use place::{Binding, Place};
pub use prop::{Atom, Connective, Link, Prop};
pub use state::{State, holds, ok_of};
