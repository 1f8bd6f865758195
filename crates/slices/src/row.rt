//! Final states as values.

ghost use Rattle.std.specs.Prelude.{◌≡◌, IfOk};

use crate::front::front_of;
use std::alloc::AllocError;
use std::cmp::Ordering;
use std::hash::{Hash, Hasher};
use std::marker::Model;

/// A final state: the values at the observed places, in their order. Contracts see the values. Beside them stands a number that most rows are
/// compared by.
#[derive(Drop)]
pub struct Row {
    front: u64,
    values: Vec<u32>,
}

impl Model for Row {
    ghost use Rattle.std.specs.Prelude.{◌≡◌, ℕ, List};
    ghost use Rattle.slices.specs.Fronts.{front_of};

    ghost Value = { List ℕ };

    ghost view = { λ r. r.values.items };

    ghost invariant = { λ r. r.front ≡ front_of r.values.items };
}

impl Row {
    /// The state of these values.
    pub fn new(values: Vec<u32>) -> Self
        ensures { result ≡ values.items }
    {
        let front = front_of(&values);
        Row { front, values }
    }

    /// The values.
    pub fn values(&self) -> &[u32]
        ensures { result.now ≡ self.now }
    {
        &self.values
    }

    /// The same state again.
    pub fn copy(&self) -> Result<Self, AllocError>
        ensures { IfOk result (λ r. r ≡ self.now) }
    {
        Ok(Row {
            front: self.front,
            values: self.values.clone()?,
        })
    }
}

impl PartialEq for Row {
    ghost use Rattle.std.proofs.Common.{rules};
    ghost use Rattle.std.specs.Cmp.Rules.{comparing};
    ghost use Rattle.std.specs.Str.{bytes_eq};

    ghost eq = { bytes_eq };

    ghost laws = { Prim.search (comparing, rules) };

    fn eq(&self, other: &Row) -> bool {
        self.values.as_slice() == other.values.as_slice()
    }
}

impl Eq for Row {
    ghost use Rattle.std.proofs.Common.{rules};
    ghost use Rattle.std.specs.Cmp.Rules.{comparing};

    ghost laws = { Prim.search (comparing, rules) };
}

impl Hash for Row {
    ghost use Rattle.std.proofs.Common.{rules};
    ghost use Rattle.std.specs.Cmp.Rules.{hashing};
    ghost use Rattle.std.specs.Hash as fed;

    ghost hash_input = { fed.slice fed.u32 };

    ghost respects_eq = { Prim.search (hashing, rules) };

    fn hash<H: Hasher>(&self, state: &mut H) {
        self.values.as_slice().hash(state);
    }
}

/// By their values as numbers, the first place first.
impl Ord for Row {
    ghost use Rattle.std.proofs.Common.{rules};
    ghost use Rattle.std.specs.Cmp.Lexicographic.{slice_cmp};
    ghost use Rattle.std.specs.Cmp.Rules.{comparing};
    ghost use Rattle.std.specs.Ordering.{nat_cmp};

    ghost cmp = { slice_cmp nat_cmp };

    ghost total = { Prim.search (comparing, rules) };

    ghost matches_partial_cmp = { Prim.search (comparing, rules) };

    ghost matches_eq = { Prim.search (comparing, rules) };

    fn cmp(&self, other: &Row) -> Ordering {
        if self.front < other.front {
            return Ordering::Less;
        }
        if other.front < self.front {
            return Ordering::Greater;
        }
        self.values.as_slice().cmp(other.values.as_slice())
    }
}

impl PartialOrd for Row {
    ghost use Rattle.std.proofs.Common.{rules};
    ghost use Rattle.std.specs.Cmp.{partial_order_from_own_ties};
    ghost use Rattle.std.specs.Cmp.Lexicographic.{slice_cmp};
    ghost use Rattle.std.specs.Cmp.Rules.{comparing};
    ghost use Rattle.std.specs.Ordering.{nat_cmp, as_partial_cmp};

    ghost partial_cmp = { as_partial_cmp (slice_cmp nat_cmp) };

    ghost laws = { partial_order_from_own_ties (Prim.search (comparing, rules)) (Prim.search (comparing, rules)) };

    fn partial_cmp(&self, other: &Row) -> Option<Ordering> {
        Some(self.cmp(other))
    }
}
