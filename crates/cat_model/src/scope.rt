//! Scopes: which names are bound, and to what.

ghost use Rattle.std.specs.Prelude.{◌≡◌, [], option_map, find, reverse};
ghost use Rattle.std.specs.Str.{bytes_eq};
ghost use Rattle.cat_model.specs.Lookups.{held_in, is_known};

use crate::denials::Marked;
use crate::depths::Nesting;
use crate::named::Named;
use crate::schemes::Scheme;
use crate::sizes::Sizing;
use crate::sort::Sort;
use std::alloc::Global;
use wb_text::Name;

/// What is known of a function, made once at its binding.
#[derive(Drop)]
pub struct Summary {
    pub sizing: Sizing,
    pub nesting: Nesting,
    pub marked: Marked,
    pub scheme: Scheme,
}

/// What a name is bound to.
#[derive(Drop)]
pub enum Held {
    Value(Sort),
    Function(Summary),
}

/// A name that is bound.
#[derive(Drop)]
pub struct BoundName<'a> {
    pub name: &'a Name,
    pub held: Held,
}

/// The names that are bound so far, over those bound beforehand. The latest is last, and hides earlier ones of its name.
#[derive(Drop)]
pub struct Scope<'a> {
    pub names: Vec<BoundName<'a>>,
}

/// The latest binding of a name.
fn latest<'s, 'a>(names: &'s [BoundName<'a>], name: &Name) -> Option<&'s BoundName<'a>>
    ensures { option_map (λ b. b.now) result ≡ find (λ b. bytes_eq b.name.now name.now) (reverse names.now) }
{
    names.iter().rev().find(|bound| *bound.name == *name)
}

impl<'a> Scope<'a> {
    /// Nothing is bound.
    pub fn new(alloc: Global) -> Self
        ensures { result.names.items ≡ [] }
    {
        Scope {
            names: Vec::new(alloc),
        }
    }

    /// What a name is bound to, if it is bound.
    pub fn held(&self, name: &Name) -> Option<&Held>
        ensures { option_map (λ h. h.now) result ≡ held_in self.now.names.items name.now }
    {
        match latest(&self.names, name) {
            Some(bound) => Some(&bound.held),
            None => None,
        }
    }

    /// Whether a name stands for something.
    pub fn knows(&self, name: &Name) -> bool
        ensures { result ≡ is_known self.now.names.items name.now }
    {
        self.held(name).is_some() || Named::of(name).is_some()
    }
}
