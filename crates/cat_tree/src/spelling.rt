//! Items in keys.

ghost use Rattle.std.specs.Prelude.{◌≡◌, OnOk};
ghost use Rattle.cat_tree.specs.Spellings.{truth_byte, kind_byte, spelled_alias, spelled_defined, spelled_bound, spelled_shown, spelled_clause};
ghost use Rattle.cat_tree.specs.Tree.{defined_of, bound_of, shown_of, check_of, clause_of};

use crate::tree::{Binding, Check, CheckKind, Definition, Element, Item};
use keys::{Key, Spell, spell_all};
use std::alloc::AllocError;
use wb_text::Name;

fn truth_byte(value: bool) -> u8
    ensures { result ≡ truth_byte value }
{
    if value { 1 } else { 0 }
}

impl CheckKind {
    /// The byte that tells it from the other kinds.
    fn byte(self) -> u8
        ensures { result ≡ kind_byte self }
    {
        match self {
            CheckKind::Acyclic => 0,
            CheckKind::Irreflexive => 1,
            CheckKind::Empty => 2,
        }
    }
}

fn spell_alias(name: &Option<Name>, key: &mut Key) -> Result<(), AllocError>
    ensures { OnOk result (key.new ≡ spelled_alias.over name.now key.old) }
{
    match name {
        Some(name) => {
            name.spell(key)?;
            key.push_byte(1)
        }
        None => key.push_byte(0),
    }
}

impl Spell for Definition {
    ghost over = { λ d s. spelled_defined.over (defined_of d) s };

    fn spell(&self, key: &mut Key) -> Result<(), AllocError>
        ensures { OnOk result (key.new ≡ spelled_defined.over (defined_of self.now) key.old) }
    {
        self.name.spell(key)?;
        spell_all(&self.parameters, key)?;
        self.value.spell(key)
    }
}

impl Spell for Binding {
    ghost over = { λ b s. spelled_bound.over (bound_of b) s };

    fn spell(&self, key: &mut Key) -> Result<(), AllocError>
        ensures { OnOk result (key.new ≡ spelled_bound.over (bound_of self.now) key.old) }
    {
        self.name.spell(key)?;
        self.value.spell(key)
    }
}

impl Spell for Element {
    ghost over = { λ e s. spelled_shown.over (shown_of e) s };

    fn spell(&self, key: &mut Key) -> Result<(), AllocError>
        ensures { OnOk result (key.new ≡ spelled_shown.over (shown_of self.now) key.old) }
    {
        self.expression.spell(key)?;
        spell_alias(&self.name, key)
    }
}

impl Spell for Check {
    ghost over = { λ c s. spelled_clause.over (check_of c) s };

    fn spell(&self, key: &mut Key) -> Result<(), AllocError>
        ensures { OnOk result (key.new ≡ spelled_clause.over (check_of self.now) key.old) }
    {
        key.push_byte(truth_byte(self.flag))?;
        key.push_byte(truth_byte(self.negated))?;
        key.push_byte(self.kind.byte())?;
        self.expression.spell(key)?;
        spell_alias(&self.name, key)?;
        key.push_byte(2)
    }
}

impl Spell for Item {
    ghost over = { λ i s. spelled_clause.over (clause_of i) s };

    fn spell(&self, key: &mut Key) -> Result<(), AllocError>
        ensures { OnOk result (key.new ≡ spelled_clause.over (clause_of self.now) key.old) }
    {
        match self {
            Item::Let(definitions) => {
                spell_all(definitions, key)?;
                key.push_byte(0)
            }
            Item::LetRec(bindings) => {
                spell_all(bindings, key)?;
                key.push_byte(1)
            }
            Item::Check(check) => check.spell(key),
            Item::Include(name) => {
                name.spell(key)?;
                key.push_byte(3)
            }
            Item::Show(elements) => {
                spell_all(elements, key)?;
                key.push_byte(4)
            }
            Item::Unshow(names) => {
                spell_all(names, key)?;
                key.push_byte(5)
            }
        }
    }
}
