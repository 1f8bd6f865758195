//! The final states that were found last.

ghost use Rattle.std.specs.Prelude.{ℕ, ◌^◌, ◌≤◌, length, IfSome};
ghost use Rattle.slices.specs.Findings.{FindingValue};
ghost use Rattle.slices.specs.Recents.{AreKnown, IsKnown};

/// How many are at hand.
const MOST_RECENT: usize = 8;

/// A final state that was found, by its number, and whether it has the proposition.
#[derive(Clone, Copy)]
pub(crate) struct Known {
    pub(crate) number: u64,
    pub(crate) has: bool,
}

/// No state has this number.
const NOTHING: Known = Known {
    number: u64::MAX,
    has: false,
};

/// Some of the final states that were found. A new one takes the place of the oldest.
#[derive(Drop)]
pub(crate) struct Recent {
    pub(crate) states: [Known; MOST_RECENT],
    next: usize,
}

impl Recent {
    /// None yet.
    pub(crate) fn new() -> Self
        ensures { (v : FindingValue) (base : ℕ) → base ^ length v.places ≤ 2 ^ 63 → AreKnown v base result }
    {
        Recent {
            states: [NOTHING; MOST_RECENT],
            next: 0,
        }
    }

    /// Whether the state with this number has the proposition, if it is at hand.
    pub(crate) fn find(&self, number: u64) -> Option<bool>
        ensures { (v : FindingValue) (base : ℕ) → AreKnown v base self.now → IfSome result (λ has. IsKnown v base (record { number = number; has = has })) }
    {
        for known in &self.states {
            if known.number == number {
                return Some(known.has);
            }
        }
        None
    }

    /// Notes a state.
    pub(crate) fn note(&mut self, known: Known)
        ensures { (v : FindingValue) (base : ℕ) → AreKnown v base self.old → IsKnown v base known → AreKnown v base self.new }
    {
        let place = self.next % MOST_RECENT;
        self.states[place] = known;
        self.next = place + 1;
    }
}
