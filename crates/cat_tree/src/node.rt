//! The nodes of expressions.

use wb_text::Name;

/// An expression that is made of no other.
#[derive(PartialEq, Eq)]
pub enum Leaf {
    /// A name that is bound, or a named set or relation of the execution.
    Name(Name),
    /// `0`
    EmptyRelation,
    /// `{}`
    EmptySet,
    /// `_`
    Universe,
}

// A function of its own: whoever holds one drops it by a call.
impl Drop for Leaf {
    fn drop(self) {
        match self {
            Leaf::Name(_) => {}
            Leaf::EmptyRelation => {}
            Leaf::EmptySet => {}
            Leaf::Universe => {}
        }
    }
}

/// What makes an expression of another.
#[derive(Clone, Copy, Debug, PartialEq, Eq)]
pub enum Sign {
    /// `~a`
    Complement,
    /// `a+`
    Plus,
    /// `a*`
    Star,
    /// `a?`
    Optional,
    /// `a^-1`
    Inverse,
    /// `domain(a)`
    Domain,
    /// `range(a)`
    Range,
    /// `[a]`
    Identity,
}

/// An operator between two expressions.
#[derive(Clone, Copy, Debug, PartialEq, Eq)]
pub enum Infix {
    /// `a | b`
    Union,
    /// `a ; b`
    Sequence,
    /// `a \ b`
    Difference,
    /// `a & b`
    Intersection,
    /// `a * b`
    Product,
}

/// A node of an expression's tree.
#[derive(PartialEq, Eq)]
pub enum Node {
    Leaf(Leaf),
    Sign(Sign),
    Infix(Infix),
    /// A call of a function, `f(a, b)`, with its number of arguments.
    Call(Name, usize),
}

// A function of its own: whoever holds one drops it by a call.
impl Drop for Node {
    fn drop(self) {
        match self {
            Node::Leaf(_) => {}
            Node::Sign(_) => {}
            Node::Infix(_) => {}
            Node::Call(_, _) => {}
        }
    }
}
