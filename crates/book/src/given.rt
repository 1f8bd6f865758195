//! The live claims, of which the newest stands by itself.

ghost use Rattle.std.specs.Prelude.{◌≡◌, ◌<◌, ◌∷◌, ◌++◌, [], false, not, ◌==◌, ◌&&◌, ℕ, List, IfSome, OnOk, OnErr, count_by};
ghost use Rattle.book.specs.Newest.{IsNewest, kept_newest, number_of, with_newest};
ghost use Rattle.book.specs.Held.{AreClaimedBut};
ghost use Rattle.book.specs.Step.{is_of, others, elsewhere};
ghost use Rattle.book.specs.Workbench.{is_claim, is_claimed, claim_of};
ghost use Rattle.book.specs.declared.live.Live.{Live};

use crate::live::{Live, LiveClaims};
use std::alloc::{AllocError, Global};
use std::marker::Model;

/// The live claims. The newest is looked at first, and comes to the others once another is given: most claims are ended before.
/// Contracts see the claims in the order in which they were given, and the last number that was given.
pub struct GivenClaims {
    older: LiveClaims,
    newest: Option<Live>,
    last: u32,
}

// A function of its own: whoever holds one drops it by a call.
impl Drop for GivenClaims {
    fn drop(self) {
        let GivenClaims {
            older: _,
            newest: _,
            last: _,
        } = self;
    }
}

impl Model for GivenClaims {
    ghost use Rattle.std.specs.Prelude.{List, ℕ};
    ghost use Rattle.book.specs.Newest.{AreGiven, with_newest};
    ghost use Rattle.book.specs.LiveCodes.{coded_live};
    ghost use Rattle.book.specs.declared.live.Live.{Live};

    ghost Value = { List Live × ℕ };

    ghost coded = { coded_live };

    ghost view = { λ c. (with_newest c.older.0 c.newest, c.last) };

    ghost invariant = { λ c. AreGiven c.older c.newest c.last };
}

impl GivenClaims {
    /// No claims, and no number given.
    pub fn new(alloc: Global) -> Self
        ensures { result ≡ ([], 0) }
    {
        GivenClaims {
            older: LiveClaims::new(alloc),
            newest: None,
            last: 0,
        }
    }

    /// The last number that was given.
    pub fn last(&self) -> u32
        ensures { result ≡ self.now.1 }
    {
        self.last
    }

    /// Whether a claim holds this slice.
    pub fn holds(&self, job: u32, slice: u16) -> bool
        ensures { result ≡ is_claimed self.now.0 job slice }
    {
        match self.newest {
            Some(claim) => {
                if is_at(claim, job, slice) {
                    true
                } else {
                    self.older.holds(job, slice)
                }
            }
            None => self.older.holds(job, slice),
        }
    }

    /// The claim of a number and seat.
    pub fn find(&self, number: u32, seat: u8) -> Option<Live>
        ensures { result ≡ claim_of self.now.0 number seat }
    {
        match self.newest {
            Some(claim) => {
                if is_claim(claim, number, seat) {
                    Some(claim)
                } else {
                    self.older.find(number, seat)
                }
            }
            None => self.older.find(number, seat),
        }
    }

    /// How many are of a job.
    pub fn of_job(&self, number: u32) -> usize
        ensures { result ≡ count_by (is_of number) self.now.0 }
    {
        let older = self.older.of_job(number);
        match self.newest {
            Some(claim) => {
                if claim.job == number {
                    // Each has a number of its own below the newest's.
                    prove!(older < self.last as usize);
                    older + 1
                } else {
                    older
                }
            }
            None => older,
        }
    }

    /// Adds a claim at a new number, of a slice that none holds, or changes nothing.
    pub fn hold(&mut self, claim: Live) -> Result<(), AllocError>
        requires new { self.old.1 < claim.number }
        requires unclaimed { is_claimed self.old.0 claim.job claim.slice ≡ false }
        ensures ok { OnOk result (self.new ≡ (self.old.0 ++ claim ∷ [], claim.number)) }
        ensures err { OnErr result (self.new ≡ self.old) }
    {
        add(&mut self.older, self.newest)?;
        self.newest = Some(claim);
        self.last = claim.number;
        Ok(())
    }

    /// Ends the claim of a number and seat.
    pub fn end(&mut self, number: u32, seat: u8)
        ensures ended { self.new ≡ (others number seat self.old.0, self.old.1) }
        ensures stay { IfSome (claim_of self.old.0 number seat) (λ c. AreClaimedBut c self.old.0 self.new.0) }
    {
        match self.newest {
            Some(claim) => {
                if is_claim(claim, number, seat) {
                    self.newest = None;
                } else {
                    self.older.end(number, seat);
                }
            }
            None => self.older.end(number, seat),
        }
    }

    /// Ends the claims of a job.
    pub fn end_of_job(&mut self, number: u32)
        ensures { self.new ≡ (elsewhere number self.old.0, self.old.1) }
    {
        self.older.end_of_job(number);
        let newest = unless_of(self.newest, number);
        self.newest = newest;
    }
}

/// Whether the claim has this number and seat.
fn is_claim(claim: Live, number: u32, seat: u8) -> bool
    ensures { result ≡ is_claim number seat claim }
{
    claim.number == number && claim.seat == seat
}

/// Whether the claim holds this slice.
fn is_at(claim: Live, job: u32, slice: u16) -> bool
    ensures { result ≡ ((claim.job == job) && (claim.slice == slice)) }
{
    claim.job == job && claim.slice == slice
}

/// Adds the newest claim to those before it, or changes nothing.
fn add(older: &mut LiveClaims, newest: Option<Live>) -> Result<(), AllocError>
    requires { (last : ℕ) × IsNewest older.old newest last }
    ensures ok { OnOk result (older.new ≡ (with_newest older.old.0 newest, number_of newest older.old.1)) }
    ensures err { OnErr result (older.new ≡ older.old) }
{
    match newest {
        Some(claim) => older.hold(claim),
        None => Ok(()),
    }
}

/// The claim, if it is not of this job.
fn unless_of(newest: Option<Live>, number: u32) -> Option<Live>
    ensures { result ≡ kept_newest number newest }
{
    match newest {
        Some(claim) => { if claim.job == number { None } else { newest } }
        None => None,
    }
}
