//! Places that a condition observes.

ghost use Rattle.std.specs.Prelude.{◌≡◌, IfOk};

use std::alloc::AllocError;
use wb_text::Name;

/// A register of a thread, or a location. Registers come before locations, each by name.
#[derive(PartialOrd, Ord, Hash)]
pub enum Place {
    Reg(usize, Name),
    Loc(Name),
}

// A function of its own: whoever holds one drops it by a call.
impl Drop for Place {
    fn drop(self) {
        match self {
            Place::Reg(_, _) => {}
            Place::Loc(_) => {}
        }
    }
}

impl PartialEq for Place {
    ghost use Rattle.std.specs.Prelude.{◌≡◌, ◌↔◌, IsTrue};
    ghost use Rattle.std.specs.Cmp.{partial_equiv_from_equiv};
    ghost use Rattle.conditions.specs.Equality.{same_place};
    ghost use Rattle.conditions.specs.Exact.{place_equivalence};

    ghost eq = { same_place };

    ghost laws = { partial_equiv_from_equiv place_equivalence };

    fn eq(&self, other: &Place) -> bool
        ensures value { result ≡ same_place self.now other.now }
        ensures exact { IsTrue result ↔ (self.now ≡ other.now) }
    {
        match (self, other) {
            (Place::Reg(thread, name), Place::Reg(other_thread, other_name)) => {
                thread == other_thread && name == other_name
            }
            (Place::Loc(name), Place::Loc(other_name)) => name == other_name,
            _ => false,
        }
    }
}

impl Eq for Place {
    ghost use Rattle.conditions.specs.Exact.{place_equivalence};

    ghost laws = { place_equivalence };
}

/// A place and its value.
pub struct Binding {
    pub place: Place,
    pub value: u32,
}

// A function of its own: whoever holds one drops it by a call.
impl Drop for Binding {
    fn drop(self) {
        let Binding { place: _, value: _ } = self;
    }
}

impl PartialEq for Binding {
    ghost use Rattle.std.specs.Prelude.{◌≡◌, ◌↔◌, IsTrue};
    ghost use Rattle.std.specs.Cmp.{partial_equiv_from_equiv};
    ghost use Rattle.conditions.specs.Equality.{same_binding};
    ghost use Rattle.conditions.specs.Exact.{binding_equivalence};

    ghost eq = { same_binding };

    ghost laws = { partial_equiv_from_equiv binding_equivalence };

    fn eq(&self, other: &Binding) -> bool
        ensures value { result ≡ same_binding self.now other.now }
        ensures exact { IsTrue result ↔ (self.now ≡ other.now) }
    {
        self.place == other.place && self.value == other.value
    }
}

impl Eq for Binding {
    ghost use Rattle.conditions.specs.Exact.{binding_equivalence};

    ghost laws = { binding_equivalence };
}

impl Place {
    /// A second place that is equal.
    pub fn copy(&self) -> Result<Place, AllocError>
        ensures { IfOk result (λ p. p ≡ self.now) }
    {
        match self {
            Place::Reg(thread, name) => Ok(Place::Reg(*thread, name.copy()?)),
            Place::Loc(name) => Ok(Place::Loc(name.copy()?)),
        }
    }
}

impl Binding {
    /// A second binding that is equal.
    pub fn copy(&self) -> Result<Binding, AllocError>
        ensures { IfOk result (λ b. b ≡ self.now) }
    {
        Ok(Binding {
            place: self.place.copy()?,
            value: self.value,
        })
    }
}
