//! How values go from one execution to another.

ghost use Rattle.std.specs.Prelude.{◌≡◌, ◌↔◌, IsTrue};
ghost use Rattle.cat_eval.specs.Growth.{IsAtMost, both as both_of, without as without_of, signed, joined, growth_of_basis, growth_of_named};
ghost use Rattle.cat_eval.specs.declared.growth.Growth.TheVariants.{Stays, Grows};

use cat_model::Named;
use cat_tree::{Infix, Sign};
use events::Basis;

/// How an execution becomes another.
#[derive(Clone, Copy)]
pub enum Change {
    /// It is extended: more is known of it.
    Extended,
    /// It is opened: its coherence orders have more pairs, and all else is the same.
    Opened,
}

/// How a value goes.
#[derive(Clone, Copy, PartialEq, Eq)]
pub enum Growth {
    /// It stays the same.
    Stays,
    /// It loses nothing.
    Grows,
    /// Nothing is known.
    Unknown,
}

impl Growth {
    /// Is it known that the value stays the same?
    pub fn stays(self) -> bool
        ensures { IsTrue result ↔ (self ≡ Stays) }
    {
        match self {
            Growth::Stays => true,
            Growth::Grows | Growth::Unknown => false,
        }
    }

    /// Is it known that the value loses nothing?
    pub fn loses_nothing(self) -> bool
        ensures { IsTrue result ↔ IsAtMost self Grows }
    {
        match self {
            Growth::Stays | Growth::Grows => true,
            Growth::Unknown => false,
        }
    }
}

// Of what grows with both.
fn both(first: Growth, second: Growth) -> Growth
    ensures { result ≡ both_of first second }
{
    match first {
        Growth::Stays => second,
        Growth::Grows => match second {
            Growth::Stays | Growth::Grows => Growth::Grows,
            Growth::Unknown => Growth::Unknown,
        },
        Growth::Unknown => Growth::Unknown,
    }
}

// Of what grows with the first, and shrinks where the second grows.
fn without(first: Growth, second: Growth) -> Growth
    ensures { result ≡ without_of first second }
{
    match second {
        Growth::Stays => first,
        Growth::Grows | Growth::Unknown => Growth::Unknown,
    }
}

// Of what rests on this.
fn of_basis(basis: Basis, change: Change) -> Growth
    ensures { result ≡ growth_of_basis change basis }
{
    match basis {
        Basis::Runs => Growth::Stays,
        Basis::Sources => match change {
            Change::Extended => Growth::Grows,
            Change::Opened => Growth::Stays,
        },
        Basis::Orders => Growth::Grows,
    }
}

/// Of what a name stands for.
pub fn of_named(named: Named, change: Change) -> Growth
    ensures { result ≡ growth_of_named change named }
{
    match named {
        Named::Set(_) => Growth::Stays,
        Named::Rel(relation) => of_basis(relation.basis(), change),
    }
}

/// Of what a sign makes.
pub fn of_sign(sign: Sign, operand: Growth) -> Growth
    ensures { result ≡ signed sign operand }
{
    match sign {
        Sign::Complement => without(Growth::Stays, operand),
        Sign::Plus
        | Sign::Star
        | Sign::Optional
        | Sign::Inverse
        | Sign::Domain
        | Sign::Range
        | Sign::Identity => operand,
    }
}

/// Of what an operator makes.
pub fn of_infix(operator: Infix, left: Growth, right: Growth) -> Growth
    ensures { result ≡ joined operator left right }
{
    match operator {
        Infix::Union | Infix::Sequence | Infix::Intersection | Infix::Product => both(left, right),
        Infix::Difference => without(left, right),
    }
}
