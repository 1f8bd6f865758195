//! The tests and the models that words name: files, folders, lists, and what models include; what a run tells of each test; and what is stored of it.
#![tactic(auto)]

mod included;
mod models;
mod paths;
mod sources;
mod stored;
mod test;
mod tests;
mod text;
mod trouble;

pub use models::Models;
pub use paths::Paths;
pub use stored::{read_rows, see_writable, store_rows, write_file};
pub use test::{Asked, Stage, Test, Timer};
pub use tests::Tests;
pub use text::{read_front, text_of};
pub use trouble::Trouble;
