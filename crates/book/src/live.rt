//! Live claims.

ghost use Rattle.std.specs.Prelude.{◌≡◌, ◌<◌, ◌∷◌, ◌++◌, [], false, not, ◌==◌, IfSome, OnOk, OnErr, count_by};
ghost use Rattle.book.specs.Held.{AreClaimedBut};
ghost use Rattle.book.specs.Step.{is_of, others, elsewhere};
ghost use Rattle.book.specs.Workbench.{is_claimed, claim_of};

use std::alloc::{AllocError, Global};
use std::collections::{BTreeMap, HashSet};
use std::marker::Model;

/// A live claim: its number and seat, and the slice of the job that it holds.
#[derive(Clone, Copy, Drop)]
pub struct Live {
    pub number: u32,
    pub seat: u8,
    pub job: u32,
    pub slice: u16,
}

/// A slice of a job.
#[derive(Clone, Copy, PartialEq, Eq, Hash, Drop)]
struct Place {
    job: u32,
    slice: u16,
}

/// The seat of a claim, and the slice of the job that it holds.
#[derive(Clone, Copy, Drop)]
struct Held {
    seat: u8,
    job: u32,
    slice: u16,
}

/// The live claims by their numbers, beside the slices that they hold, and the last number that was given. Contracts see
/// the claims in the order in which they were given, and that number.
pub struct LiveClaims {
    claims: BTreeMap<u32, Held>,
    places: HashSet<Place>,
    last: u32,
}

// A function of its own: whoever holds one drops it by a call.
impl Drop for LiveClaims {
    fn drop(self) {
        let LiveClaims {
            claims: _,
            places: _,
            last: _,
        } = self;
    }
}

impl Model for LiveClaims {
    ghost use Rattle.std.specs.Prelude.{List, ℕ, map};
    ghost use Rattle.std.specs.HashSet.{contains};
    ghost use Rattle.book.specs.LiveCodes.{coded_live};
    ghost use Rattle.book.specs.Held.{live_of, IsHeld, same_place};
    ghost use Rattle.book.specs.declared.live.Live.{Live};

    ghost Value = { List Live × ℕ };

    ghost coded = { coded_live };

    ghost view = { λ c. (map live_of c.claims.entries, c.last) };

    ghost invariant = { λ c. IsHeld (map live_of c.claims.entries) (λ job slice. contains same_place c.places (record { job = job; slice = slice })) c.last };
}

impl LiveClaims {
    /// No claims, and no number given.
    #[tactic(auto, using(crate::proofs::Held::held_new))]
    pub fn new(alloc: Global) -> Self
        ensures { result ≡ ([], 0) }
    {
        LiveClaims {
            claims: BTreeMap::new(alloc),
            places: HashSet::new(alloc),
            last: 0,
        }
    }

    /// The last number that was given.
    pub fn last(&self) -> u32
        ensures { result ≡ self.now.1 }
    {
        self.last
    }

    /// Whether a claim holds this slice.
    pub fn holds(&self, job: u32, slice: u16) -> bool
        ensures { result ≡ is_claimed self.now.0 job slice }
    {
        self.places.contains(&Place { job, slice })
    }

    /// The claim of a number and seat.
    #[tactic(auto, using(crate::proofs::Held::found_none))]
    pub fn find(&self, number: u32, seat: u8) -> Option<Live>
        ensures { result ≡ claim_of self.now.0 number seat }
    {
        match self.claims.get(&number) {
            Some(held) => {
                if held.seat == seat {
                    Some(Live {
                        number,
                        seat: held.seat,
                        job: held.job,
                        slice: held.slice,
                    })
                } else {
                    None
                }
            }
            None => None,
        }
    }

    /// How many are of a job.
    pub fn of_job(&self, number: u32) -> usize
        ensures { result ≡ count_by (is_of number) self.now.0 }
    {
        self.claims
            .values()
            .filter(|held| held.job == number)
            .count()
    }

    /// Adds a claim at a new number, of a slice that none holds, or changes nothing.
    pub fn hold(&mut self, claim: Live) -> Result<(), AllocError>
        requires new { self.old.1 < claim.number }
        requires unclaimed { is_claimed self.old.0 claim.job claim.slice ≡ false }
        ensures ok { OnOk result (self.new ≡ (self.old.0 ++ claim ∷ [], claim.number)) }
        ensures err { OnErr result (self.new ≡ self.old) }
    {
        let place = Place {
            job: claim.job,
            slice: claim.slice,
        };
        let held = Held {
            seat: claim.seat,
            job: claim.job,
            slice: claim.slice,
        };
        self.places.insert(place)?;
        match self.claims.insert(claim.number, held) {
            Ok(_) => {
                self.last = claim.number;
                Ok(())
            }
            Err(_) => {
                self.places.remove(&place);
                Err(AllocError)
            }
        }
    }

    /// Ends the claim of a number and seat.
    pub fn end(&mut self, number: u32, seat: u8)
        ensures ended { self.new ≡ (others number seat self.old.0, self.old.1) }
        ensures stay { IfSome (claim_of self.old.0 number seat) (λ c. AreClaimedBut c self.old.0 self.new.0) }
    {
        if let Some(claim) = self.find(number, seat) {
            self.claims.remove(&number);
            self.places.remove(&Place {
                job: claim.job,
                slice: claim.slice,
            });
        }
    }

    /// Ends the claims of a job.
    pub fn end_of_job(&mut self, number: u32)
        ensures { self.new ≡ (elsewhere number self.old.0, self.old.1) }
    {
        self.claims.retain(
            |_number: &u32, held: &mut Held| -> bool
                ensures { (result ≡ not (held.old.job == number)) × (held.new ≡ held.old) }
            { held.job != number },
        );
        self.places.retain(|place| place.job != number);
    }
}
