//! The reader of models in the cat language.
#![tactic(auto)]

mod counting;
mod fault;
mod foreign;
pub mod laws;
mod operator;
mod reading;
mod symbol;
mod syntax_fault;

pub use cat_tree::{
    Binding, CatFile, Check, CheckKind, Definition, Element, Expression, Infix, Item, Leaf, Node,
    Sign, Title,
};
pub use fault::CatFault;
pub use reading::read_cat;
