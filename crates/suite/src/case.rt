//! A test under a model.

/// A test under a model: the test's path, the word that names the model, and the digests of the model's texts.
#[derive(Clone, Copy)]
pub struct Case<'a> {
    pub path: &'a str,
    pub model: &'a str,
    pub digests: &'a str,
}
