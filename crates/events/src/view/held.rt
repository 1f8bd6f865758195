//! What a view holds of other executions than its own, and how its own is shown.

ghost use Rattle.std.specs.Prelude.{◌≡◌};
ghost use Rattle.events.specs.Held.{held_value, placed_value};

use super::sourced::SourcedStructure;
use crate::cut::{Cut, Part};
use relations::Rel;

/// How an execution is shown.
#[derive(Drop)]
pub(super) enum Shown<'a> {
    /// As it is.
    Whole,
    /// As far as it is known.
    Partly(Part<'a>),
    /// With the writes open that the cut leaves without a place.
    Opened(Cut<'a>),
}

/// What an execution has in common with those that differ in their coherence orders alone. What is owned lies in a box, so that
/// a view stays small.
#[derive(Drop)]
pub(super) enum Held<'a> {
    Own(Box<SourcedStructure>),
    Lent(&'a SourcedStructure),
}

impl<'a> Held<'a> {
    /// What is held.
    pub(super) fn get(&self) -> &SourcedStructure
        ensures { result.now ≡ held_value self.now }
    {
        match self {
            Held::Own(sourced) => sourced,
            Held::Lent(sourced) => sourced,
        }
    }
}

/// The coherence orders of an execution as a relation, in a place of its own or in one that is lent.
#[derive(Drop)]
pub(super) enum Placed<'a> {
    Own(Box<Rel>),
    Lent(&'a Rel),
}

impl<'a> Placed<'a> {
    /// The relation.
    pub(super) fn get(&self) -> &Rel
        ensures { result.now ≡ placed_value self.now }
    {
        match self {
            Placed::Own(rel) => rel,
            Placed::Lent(rel) => rel,
        }
    }
}
