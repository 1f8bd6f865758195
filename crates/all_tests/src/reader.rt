//! Tests of the reader of C litmus tests, by public items alone.

mod adds;
mod answers;
pub mod copies;
mod growth;
mod refusals;
mod sizes;
mod trees;
