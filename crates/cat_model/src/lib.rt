//! Models put together: files with their includes, and the names, sorts and sizes of their expressions.
#![tactic(auto)]

mod beforehand;
mod binding;
mod charging;
mod checking;
mod denials;
mod depths;
mod draft;
mod fault;
mod files;
pub mod laws;
mod model;
mod named;
mod naming;
mod places;
mod rc11_text;
mod resolving;
mod schemes;
mod scope;
mod sizes;
mod sketch;
mod sort;
mod walk;
mod weights;
mod words;

pub use fault::ModelFault;
pub use files::Files;
pub use model::{FileVersion, Model};
pub use named::Named;
pub use resolving::resolve;
pub use sort::Sort;
