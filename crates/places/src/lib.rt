//! Places in texts, for people: lines and columns, and the text that tells of a fault there.
#![tactic(auto)]

mod front;
mod message;
mod place;
mod spelling;

pub use front::place_of_fault;
pub use message::{message_at, message_without_place};
pub use place::Place;
pub use spelling::{first_spelled, is_word, spelled, token_at};
