//! Reasons why a model forbids an execution.

use cat_tree::CheckKind;
use wb_text::Name;

/// What shows that the value of a check's expression fails the check. Events are named by their numbers in the execution.
#[derive(Drop)]
pub enum Evidence {
    /// Of `acyclic`, a shortest cycle: each event is related to the next, and the last to the first.
    Cycle(Vec<usize>),
    /// Of `irreflexive`, an event that is related to itself.
    Itself(usize),
    /// Of `empty`, a pair of the relation.
    Pair(usize, usize),
    /// Of `empty`, an event of the set.
    Member(usize),
    /// Of a denied check nothing shows it.
    Denied,
}

/// The first check without a flag that doesn't hold in an execution.
#[derive(Drop)]
pub struct Reason {
    /// Its place among the model's items.
    pub number: usize,
    pub negated: bool,
    pub kind: CheckKind,
    /// The name behind its `as`.
    pub name: Option<Name>,
    pub evidence: Evidence,
}
