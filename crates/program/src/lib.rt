//! The program for scripts: the words of its command line, one test from its bytes to its printed summary, and what a task comes to.
#![tactic(auto)]

mod command_line;
pub mod laws;
mod main_file;
mod refusal;
mod summary;
mod task;

pub use command_line::{Task, read_task};
pub use refusal::write_refusal;
pub use summary::{OneFault, one};
pub use task::{BAD, DONE, FAILED, do_task};
