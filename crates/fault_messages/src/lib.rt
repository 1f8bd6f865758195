//! What is wrong with a text, in words for people.
#![tactic(auto)]

mod arguments;
mod bytes;
mod cat;
mod found;
mod left_out;
mod model;
mod names;
mod orders;
mod syntax;
mod test;
mod text;
mod words;

pub use cat::cat_trouble;
pub use cat_places::Source;
pub use model::model_fault;
pub use test::{space_trouble, test_fault};
