//! Litmus tests within their limits, and their values.
#![tactic(auto)]

pub mod laws;
mod test;
mod values;

pub use test::Test;
pub use values::{ValuesFault, values_among};
