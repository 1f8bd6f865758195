//! What is told of a test under its models, in each form; rows that were stored, read back; and the last line of a run.
#![tactic(auto)]

mod counts;
mod evidence;
mod explaining;
mod form;
mod reading;
mod refusal;
mod rows;
mod told;
mod verdicts;

pub use counts::{Counts, Fate, Status};
pub use form::{Form, Tested, Wanted};
pub use reading::{RowsFault, rows_in};
pub use told::Told;
