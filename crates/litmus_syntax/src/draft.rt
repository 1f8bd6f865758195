//! A test as it is written, before its names are looked up.

use conditions::{Binding, Cond, Place};
use litmus_tree::{Parameter, Statement};
use wb_text::Name;

/// A thread as it is written.
#[derive(Drop)]
pub struct Body {
    pub parameters: Vec<Parameter>,
    pub statements: Vec<Statement>,
}

/// A test as it is written.
#[derive(Drop)]
pub struct Draft {
    pub name: Name,
    /// The entries of the initial state, in order.
    pub entries: Vec<Binding>,
    pub bodies: Vec<Body>,
    /// What `locations` lists, in order.
    pub listed: Vec<Place>,
    pub condition: Cond,
}
