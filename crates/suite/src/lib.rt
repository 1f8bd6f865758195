//! Many tests under many models: what is judged, the line or the row that tells it, and how it differs from what was expected.
#![tactic(auto)]

mod case;
mod digest;
mod expected;
mod fault;
mod json;
mod judging;
mod line;
mod loading;
mod sink;
mod summary;
mod table;
mod text;
mod together;

pub use case::Case;
pub use digest::digests_of;
pub use expected::{Row, differences};
pub use fault::{ModelTrouble, TestTrouble};
pub use json::object_of;
pub use judging::{Endless, Patience, judge_text};
pub use line::{answer_of, line_of, row_of};
pub use loading::{CatText, load_model};
pub use sink::TextSink;
pub use summary::summary_of;
pub use table::{are_alike, cell_of, head_of, table_row_of};
