//! The condition of a test.

ghost use Rattle.std.specs.Prelude.{◌≡◌};
ghost use Rattle.conditions.specs.Conditions.{formula_of};

use crate::prop::Prop;
use std::marker::Model;

/// What is asked of the final states of the allowed executions.
#[derive(Clone, Copy, Debug, PartialEq, Eq)]
pub enum Kind {
    /// Some have the proposition.
    Exists,
    /// None has it.
    NotExists,
    /// All have it.
    Forall,
}

/// A question and its proposition.
pub struct Cond {
    kind: Kind,
    prop: Prop,
}

// A function of its own: whoever holds one drops it by a call.
impl Drop for Cond {
    fn drop(self) {
        let Cond { kind: _, prop: _ } = self;
    }
}

impl Model for Cond {
    ghost use Rattle.conditions.specs.Conditions.{Condition, formula_of};
    ghost use Rattle.conditions.specs.Codes.{coded_condition};

    ghost Value = { Condition };

    ghost coded = { coded_condition };

    ghost view = { λ c. record { kind = c.kind; formula = formula_of c.prop } };
}

impl PartialEq for Cond {
    ghost use Rattle.std.specs.Prelude.{◌≡◌, ◌↔◌, IsTrue};
    ghost use Rattle.std.specs.Cmp.{partial_equiv_from_equiv};
    ghost use Rattle.conditions.specs.Equality.{same_condition};
    ghost use Rattle.conditions.specs.Exact.{condition_equivalence};

    ghost eq = { same_condition };

    ghost laws = { partial_equiv_from_equiv condition_equivalence };

    fn eq(&self, other: &Cond) -> bool
        ensures value { result ≡ same_condition self.now other.now }
        ensures exact { IsTrue result ↔ (self.now ≡ other.now) }
    {
        self.kind == other.kind && self.prop == other.prop
    }
}

impl Eq for Cond {
    ghost use Rattle.conditions.specs.Exact.{condition_equivalence};

    ghost laws = { condition_equivalence };
}

impl Cond {
    /// The question of this kind on this proposition.
    pub fn new(kind: Kind, prop: Prop) -> Self
        ensures { result ≡ record { kind = kind; formula = formula_of prop } }
    {
        Cond { kind, prop }
    }

    /// What is asked.
    pub fn kind(&self) -> Kind
        ensures { result ≡ self.now.kind }
    {
        self.kind
    }

    /// The proposition.
    pub fn prop(&self) -> &Prop
        ensures { formula_of result.now ≡ self.now.formula }
    {
        &self.prop
    }
}
