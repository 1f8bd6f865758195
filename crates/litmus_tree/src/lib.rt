//! The trees of C litmus tests: threads with their statements, and how they are written in a key.
#![tactic(auto)]

mod expression;
pub mod laws;
mod tree;

pub use expression::{Expression, Leaf, Link, Operator};
pub use tree::{
    Call, Computation, Declarator, LocationKind, Parameter, RightSide, Statement, Thread,
};
