//! The entries of the book's journal: what was asked, and what was replied.
#![tactic(auto)]

mod equality;
pub mod laws;
mod listing;
mod records;

pub use listing::{JobRow, Listing, Loaded};
pub use records::{Command, Entry, Refusal, Replacement, Reply, Returned, Said, SourceKind, Text};
