//! The first place at which a text breaks the rule that it is refused for as a test.
#![tactic(auto)]

mod accesses;
mod beside;
pub mod laws;
mod limits;
mod mark;
mod numbers;
mod place;
mod reading;
mod rules;
mod values;

pub use mark::{Mark, Part, Role, marks};
pub use place::place_of;
