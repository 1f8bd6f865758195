//! The trees of models in the cat language, with copies and `==`.
#![tactic(auto)]

mod copying;
mod equality;
mod expression;
mod file;
pub mod laws;
mod node;
mod spelling;
mod tree;

pub use expression::Expression;
pub use file::{CatFile, Title};
pub use node::{Infix, Leaf, Node, Sign};
pub use tree::{Binding, Check, CheckKind, Definition, Element, Item};
