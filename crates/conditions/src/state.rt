//! Final states, and what holds in them.

ghost use Rattle.std.specs.Prelude.{◌≡◌, length};
ghost use Rattle.conditions.specs.Chains.{passed};
ghost use Rattle.conditions.specs.Conditions.{atomic, growth_of, formula_of};
ghost use Rattle.conditions.specs.States.{bindings, value_at, holds_in, answers_ok};

use crate::condition::Kind;
use crate::place::Place;
use crate::prop::{Atom, Connective, Link, Prop};
use std::marker::Model;

/// A final state: some places and their values. Contracts see its bindings. A place that isn't listed has 0.
#[derive(Drop)]
pub struct State<'a> {
    places: &'a [Place],
    values: &'a [u32],
}

impl<'a> Model for State<'a> {
    ghost use Rattle.std.specs.Prelude.{◌≡◌, List, length};
    ghost use Rattle.conditions.specs.declared.place.Binding.{Binding};
    ghost use Rattle.conditions.specs.States.{bindings};

    ghost Value = { List Binding };

    ghost view = { λ s. bindings s.places.now s.values.now };

    ghost invariant = { λ s. length s.places.now ≡ length s.values.now };
}

impl<'a> State<'a> {
    /// The state in which each place has the value at its index.
    pub fn new(places: &'a [Place], values: &'a [u32]) -> Self
        requires { length places.now ≡ length values.now }
        ensures { result ≡ bindings places.entry.now values.entry.now }
    {
        State { places, values }
    }

    /// The value of a place: 0 where it isn't listed.
    pub fn value_of(&self, place: &Place) -> u32
        ensures { result ≡ value_at self.now place.now }
    {
        for (i, listed) in self.places.iter().enumerate() {
            if listed == place {
                return self.values[i];
            }
        }
        0
    }
}

impl Atom {
    /// Whether it holds in the state.
    fn holds(&self, state: &State) -> bool
        ensures { result ≡ holds_in state.now (atomic self.now) }
    {
        match self {
            Atom::True => true,
            Atom::False => false,
            Atom::Equals(place, value) => state.value_of(place) == *value,
        }
    }
}

/// Whether the proposition holds in the state. Recursion goes into right operands alone.
#[cycle(holding)]
#[tactic(auto, using(crate::specs::Chains::holds_along))]
pub fn holds(prop: &Prop, state: &State) -> bool
    ensures { result ≡ holds_in state.now (formula_of prop.now) }
{
    let mut so_far = prop.first.holds(state);
    for link in &prop.rest {
        so_far = link.holds(state, so_far);
    }
    so_far
}

impl Link {
    /// Whether all up to this link holds, where what stands before it does or doesn't.
    #[cycle(holding)]
    #[tactic(auto, using(crate::specs::Chains::join_is))]
    fn holds(&self, state: &State, so_far: bool) -> bool
        ensures { result ≡ passed state.now so_far (growth_of self.now) }
    {
        match self {
            Link::Not => !so_far,
            Link::Join(Connective::And, operand) => so_far && holds(operand, state),
            Link::Join(Connective::Or, operand) => so_far || holds(operand, state),
            Link::Join(Connective::Implies, operand) => !so_far || holds(operand, state),
        }
    }
}

/// Whether the answer is Ok, where this many executions have the proposition and this many have it not.
pub fn ok_of(kind: Kind, positive: u64, negative: u64) -> bool
    ensures { result ≡ answers_ok kind positive negative }
{
    match kind {
        Kind::Exists => positive > 0,
        Kind::NotExists => positive == 0,
        Kind::Forall => negative == 0,
    }
}
