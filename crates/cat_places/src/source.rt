//! The files of a model.

use wb_text::Name;

/// A file of a model: the name by which it is included, its path, and its text.
#[derive(Drop)]
pub struct Source {
    pub name: Name,
    pub path: String,
    pub text: Vec<u8>,
}
