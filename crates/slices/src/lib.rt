//! The evaluation of a test: works, pieces of their numbers, results, tallies and verdicts.
#![tactic(auto)]

mod alike;
mod counting;
mod course;
mod draft;
mod equality;
mod excerpts;
mod finding;
mod front;
mod gathering;
mod judged;
mod kept_space;
pub mod laws;
mod lesson;
mod lessons;
mod pair;
mod piece;
mod prospects;
mod pruning;
mod question;
mod reason;
mod recent;
mod rivals;
mod row;
mod slot;
mod span;
mod state_set;
mod tally;
mod verdict;
mod ways;
mod work;

pub use course::Course;
pub use finding::{Finding, FindingRef};
pub use kept_space::KeptSpace;
pub use piece::{Piece, PieceResult, evaluate, space_of};
pub use pruning::Pruner;
pub use question::Question;
pub use row::Row;
pub use span::{Span, cut};
pub use tally::Tally;
pub use verdict::{Verdict, VerdictRef};
pub use work::{Work, WorkRef};
