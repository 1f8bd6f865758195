//! Models and executions made of texts.

use crate::cat::loading::put;
use crate::litmus::read;
use crate::names::name;
use cat_model::{Files, Model, resolve};
use events::Graph;
use slices::Work;
use std::alloc::{AllocError, Global};
use witness::closest;

/// The model of this root.
fn resolved(alloc: Global, files: &Files, root: &[u8]) -> Result<Model, AllocError> {
    let root = name(alloc, root)?;
    match resolve(alloc, files, &root) {
        Ok(model) => Ok(model),
        Err(_) => Err(AllocError),
    }
}

/// The model of a text among files, or the built-in one.
fn model_among(alloc: Global, files: &mut Files, text: &str) -> Result<Model, AllocError> {
    if text == "rc11.cat" {
        return resolved(alloc, files, b"rc11.cat");
    }
    if put(alloc, files, "m.cat", text)? {
        resolved(alloc, files, b"m.cat")
    } else {
        Err(AllocError)
    }
}

/// The model of a text, or RC11 where that is its name.
pub fn model(alloc: Global, text: &str) -> Result<Model, AllocError> {
    let mut files = Files::new(alloc)?;
    model_among(alloc, &mut files, text)
}

/// A test, to be judged under a model.
pub fn work(alloc: Global, test: &str, model_text: &str) -> Result<Work, AllocError> {
    let model = model(alloc, model_text)?;
    let test = read(alloc, test)?;
    match Work::new(alloc, test, model) {
        Ok(work) => Ok(work),
        Err(_) => Err(AllocError),
    }
}

/// The first execution that has the proposition of a test.
pub fn execution(alloc: Global, test: &str) -> Result<Graph, AllocError> {
    let work = work(alloc, test, "rc11.cat")?;
    match closest(alloc, &work, true)? {
        Some(execution) => Ok(execution),
        None => Err(AllocError),
    }
}
