//! The printed summary of a verdict, and the printed text of each reply of a book.
#![tactic(auto)]

mod lines;
mod listing;
mod parts;
mod propositions;
mod refusal;
mod reply;
mod states;
mod summary;

pub use parts::{write_bytes, write_parts};
pub use refusal::{write_cat_fault, write_model_fault, write_space_fault, write_test_fault};
pub use reply::write_reply;
pub use summary::{WriteFault, write_summary};
