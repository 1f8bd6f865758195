//! The first place at which a cat text, or the files of a model, break the rule that they are refused for.
#![tactic(auto)]

mod blame;
mod denied;
mod item;
mod model;
mod source;
mod text;
mod walk;

pub use model::place_of;
pub use source::Source;
pub use text::place_of_text;
