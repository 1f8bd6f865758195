//! C litmus tests, and their reader.
#![tactic(auto)]

mod fault;
pub mod laws;
mod making;
mod reading;
mod rules;

pub use fault::TestFault;
pub use litmus_tree::{
    Call, Computation, Declarator, Expression, Leaf, Link, LocationKind, Operator, Parameter,
    RightSide, Statement, Thread,
};
pub use litmus_value::Test;
pub use reading::read_test;
