//! Keys: values as bytes that tell them apart, so that one comparison of bytes decides whether two values are equal.
#![tactic(auto)]

mod key;
pub mod laws;
mod spell;

pub use key::Key;
pub use spell::{Spell, spell_all};
