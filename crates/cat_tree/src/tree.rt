//! Trees of models.

use crate::expression::Expression;
use wb_text::Name;

/// What a check tests.
#[derive(Clone, Copy, Debug, PartialEq, Eq)]
pub enum CheckKind {
    Acyclic,
    Irreflexive,
    Empty,
}

/// A name with what a `let` binds it to: a value, or a function where there are parameters. The value of a function is its body.
pub struct Definition {
    pub name: Name,
    pub parameters: Vec<Name>,
    pub value: Expression,
}

// A function of its own: whoever holds one drops it by a call.
impl Drop for Definition {
    fn drop(self) {
        let Definition {
            name: _,
            parameters: _,
            value: _,
        } = self;
    }
}

/// A name with what a `let rec` binds it to.
pub struct Binding {
    pub name: Name,
    pub value: Expression,
}

// A function of its own: whoever holds one drops it by a call.
impl Drop for Binding {
    fn drop(self) {
        let Binding { name: _, value: _ } = self;
    }
}

/// A check: `flag ~acyclic a as name`, where all but the word and the expression may be left out.
pub struct Check {
    pub flag: bool,
    pub negated: bool,
    pub kind: CheckKind,
    pub expression: Expression,
    pub name: Option<Name>,
}

// A function of its own: whoever holds one drops it by a call.
impl Drop for Check {
    fn drop(self) {
        let Check {
            flag: _,
            negated: _,
            kind: _,
            expression: _,
            name: _,
        } = self;
    }
}

/// An element of a `show`.
#[derive(Drop)]
pub struct Element {
    pub expression: Expression,
    pub name: Option<Name>,
}

/// An item of a model.
pub enum Item {
    /// `let a = e and f(x) = g`: all names are bound at once.
    Let(Vec<Definition>),
    /// `let rec a = e and b = f`: the names stand in their own expressions.
    LetRec(Vec<Binding>),
    Check(Check),
    /// `include "name"`
    Include(Name),
    /// `show a as b, c`, which has no effect.
    Show(Vec<Element>),
    /// `unshow a, b`, which has no effect.
    Unshow(Vec<Name>),
}

// A function of its own: whoever holds one drops it by a call.
impl Drop for Item {
    fn drop(self) {
        match self {
            Item::Let(_) => {}
            Item::LetRec(_) => {}
            Item::Check(_) => {}
            Item::Include(_) => {}
            Item::Show(_) => {}
            Item::Unshow(_) => {}
        }
    }
}
