//! The book, the desk that sessions share, and its workers.

pub mod books;
mod calls;
pub mod commands;
mod passes;
mod working;
pub mod works;
