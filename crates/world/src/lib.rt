//! The world of a book: sessions and workers who call it, and what holds after every list of events.
//!
//! There is no program logic here: `specs/` has the definitions, `proofs/` the lemmas, and `laws` states what holds.
#![tactic(auto)]

pub mod laws;
