//! Tests of the cat crates, by their public items alone.

mod chains;
mod functions;
mod growth;
mod judging;
pub mod loading;
mod model;
mod opened;
mod orders;
mod refuting;
mod syntax;
mod texts;
