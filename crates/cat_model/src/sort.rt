//! Sorts of expressions.

/// What an expression stands for.
#[derive(Clone, Copy, Debug, PartialEq, Eq)]
pub enum Sort {
    /// A set of events.
    Set,
    /// A relation between events.
    Relation,
}
