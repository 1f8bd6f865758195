//! Places, bindings and conditions as they are written in a key.

ghost use Rattle.std.specs.Prelude.{◌≡◌, OnOk};
ghost use Rattle.conditions.specs.Conditions.{atomic, growth_of, formula_of};
ghost use Rattle.conditions.specs.Spellings.{spelled_place, spelled_binding, spelled_kind, spelled_condition, connective_byte, formula_over, growth_over};

use crate::condition::{Cond, Kind};
use crate::place::{Binding, Place};
use crate::prop::{Atom, Connective, Link, Prop};
use keys::{Key, Spell};
use std::alloc::AllocError;

impl Spell for Place {
    ghost over = { spelled_place.over };

    fn spell(&self, key: &mut Key) -> Result<(), AllocError>
        ensures { OnOk result (key.new ≡ spelled_place.over self.now key.old) }
    {
        match self {
            Place::Reg(thread, name) => {
                key.push_number(*thread as u64)?;
                name.spell(key)?;
                key.push_byte(0)
            }
            Place::Loc(name) => {
                name.spell(key)?;
                key.push_byte(1)
            }
        }
    }
}

impl Spell for Binding {
    ghost over = { spelled_binding.over };

    fn spell(&self, key: &mut Key) -> Result<(), AllocError>
        ensures { OnOk result (key.new ≡ spelled_binding.over self.now key.old) }
    {
        self.place.spell(key)?;
        key.push_number(u64::from(self.value))
    }
}

impl Spell for Kind {
    ghost over = { spelled_kind.over };

    fn spell(&self, key: &mut Key) -> Result<(), AllocError>
        ensures { OnOk result (key.new ≡ spelled_kind.over self.now key.old) }
    {
        match self {
            Kind::Exists => key.push_byte(0),
            Kind::NotExists => key.push_byte(1),
            Kind::Forall => key.push_byte(2),
        }
    }
}

impl Spell for Cond {
    ghost over = { spelled_condition.over };

    fn spell(&self, key: &mut Key) -> Result<(), AllocError>
        ensures { OnOk result (key.new ≡ spelled_condition.over self.now key.old) }
    {
        spell_prop(self.prop(), key)?;
        self.kind().spell(key)
    }
}

impl Atom {
    fn spell(&self, key: &mut Key) -> Result<(), AllocError>
        ensures { OnOk result (key.new ≡ formula_over (atomic self.now) key.old) }
    {
        match self {
            Atom::True => key.push_byte(0),
            Atom::False => key.push_byte(1),
            Atom::Equals(place, value) => {
                place.spell(key)?;
                key.push_number(u64::from(*value))?;
                key.push_byte(2)
            }
        }
    }
}

/// Recursion goes into right operands alone.
#[cycle(spelling)]
fn spell_prop(prop: &Prop, key: &mut Key) -> Result<(), AllocError>
    ensures { OnOk result (key.new ≡ formula_over (formula_of prop.now) key.old) }
{
    prop.first.spell(key)?;
    for link in &prop.rest {
        link.spell(key)?;
    }
    Ok(())
}

impl Link {
    /// Writes the operand, and the link's byte on top.
    #[cycle(spelling)]
    #[tactic(auto, using(crate::specs::Chains::join_is))]
    fn spell(&self, key: &mut Key) -> Result<(), AllocError>
        ensures { OnOk result (key.new ≡ growth_over key.old (growth_of self.now)) }
    {
        match self {
            Link::Not => key.push_byte(3),
            Link::Join(connective, operand) => {
                spell_prop(operand, key)?;
                key.push_byte(connective.byte())
            }
        }
    }
}

impl Connective {
    fn byte(self) -> u8
        ensures { result ≡ connective_byte self }
    {
        match self {
            Connective::And => 4,
            Connective::Or => 5,
            Connective::Implies => 6,
        }
    }
}
