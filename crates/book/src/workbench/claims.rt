//! What is done with claims: slices are claimed, returned and given back.

ghost use Rattle.std.specs.Prelude.{◌≡◌, ◌<◌, ◌↔◌, ◌&&◌, not, true, false, None, Some, IfOk, MatchOption, IsTrue, count_by};
ghost use Rattle.book.specs.Changes.{changed, IsReady};
ghost use Rattle.book.specs.Frees.{IsFirstFree, IsFreeAt, IsNoneBefore};
ghost use Rattle.book.specs.Step.{Step, IsOwn, is_of};
ghost use Rattle.book.specs.Workbench.{is_claimed, is_replaced, has_free, any_free};
ghost use Rattle.journal.specs.Lines.{answers, returned, shown};
ghost use Rattle.journal.specs.declared.records.Said.{Said};

use crate::jobs::Job;
use crate::live::Live;
use crate::mark::Mark;
use crate::plan::{Change, Plan};
use crate::slice::Slice;
use crate::workbench::Bench;
use journal::{Refusal, Reply};
use slices::{Piece, PieceResult};
use std::alloc::AllocError;

/// A free slice of a job, and the place of the job among the jobs.
#[derive(Clone, Copy, Drop)]
struct FreeSlice<'a> {
    place: usize,
    job: &'a Job,
    slice: u16,
}

impl Bench {
    #[tactic(auto, using(crate::proofs::Claims::nothing, crate::proofs::Claims::claims_spent, crate::proofs::Claims::given, crate::proofs::Frees::slice_inside))]
    pub(crate) fn decide_claim(&self, seat: u8) -> Result<Plan, AllocError>
        requires { self.now.closed ≡ false }
        ensures step { IfOk result (λ p. Step self.now seat Said.Claim p.reply (changed self.now p.change)) }
        ensures kind { IfOk result (λ p. answers Said.Claim p.reply ≡ true) }
        ensures ready { IfOk result (λ p. IsReady self.now p.change) }
    {
        let Some(free) = self.free_place() else {
            return Ok(Plan::keep(Reply::Nothing));
        };
        let last = self.live.last();
        if last >= self.limits.claims {
            return Ok(Plan::refuse(Refusal::ClaimsSpent));
        }
        let number = last + 1;
        let claim = Live {
            number,
            seat,
            job: free.job.number(),
            slice: free.slice,
        };
        let mark = Mark {
            job: free.place,
            slice: free.slice,
        };
        Ok(Plan {
            reply: Reply::Piece(free.job.piece(number, free.slice)?),
            change: Change::Hold(claim, mark),
        })
    }

    #[tactic(auto, using(crate::proofs::Steps::no_claim, crate::proofs::Steps::claim_of_no_job, crate::proofs::Steps::return_replaced, crate::proofs::Steps::return_stranger, crate::proofs::Steps::return_taken, crate::proofs::Steps::take_ready))]
    pub(crate) fn decide_return(&self, seat: u8, part: &PieceResult) -> Result<Plan, AllocError>
        requires { self.now.closed ≡ false }
        ensures step { IfOk result (λ p. Step self.now seat (Said.Return (returned part.now)) p.reply (changed self.now p.change)) }
        ensures kind { IfOk result (λ p. answers (Said.Return (returned part.now)) p.reply ≡ true) }
        ensures ready { IfOk result (λ p. IsReady self.now p.change) }
    {
        let number = part.piece().claim();
        let Some(claim) = self.claim(number, seat) else {
            return Ok(Plan::refuse(Refusal::NoClaim(number)));
        };
        let Some(job) = self.job(claim.job) else {
            return Ok(Plan::refuse(Refusal::NoClaim(number)));
        };
        if let Some(replacement) = self.replaced_since(claim.job, job)? {
            return Ok(Plan {
                reply: Reply::Refused(Refusal::Replaced(replacement)),
                change: Change::End(number, seat),
            });
        }
        if !is_own(&claim, job, part.piece()) {
            return Ok(Plan::refuse(Refusal::Stranger(number)));
        }
        let done = job.done_with(part.piece().slice());
        Ok(Plan {
            reply: Reply::Taken(done, job.total()),
            change: Change::Take(number, seat, claim.job, part.share()?),
        })
    }

    #[tactic(auto, using(crate::proofs::Drops::give_back_no_claim, crate::proofs::Drops::gave_back))]
    pub(crate) fn decide_give_back(&self, seat: u8, number: u32) -> Plan
        requires { self.now.closed ≡ false }
        ensures step { Step self.now seat (Said.GiveBack number) result.reply (changed self.now result.change) }
        ensures kind { answers (Said.GiveBack number) result.reply ≡ true }
        ensures ready { IsReady self.now result.change }
    {
        match self.claim(number, seat) {
            Some(_) => Plan {
                reply: Reply::Done,
                change: Change::End(number, seat),
            },
            None => Plan::refuse(Refusal::NoClaim(number)),
        }
    }

    /// How many live claims are of a job.
    pub(crate) fn held(&self, number: u32) -> usize
        ensures { result ≡ count_by (is_of number) self.now.live }
    {
        self.live.of_job(number)
    }

    /// Whether a slice of some job is free.
    #[tactic(auto, using(crate::proofs::Claims::any_in))]
    pub(crate) fn any_free(&self) -> bool
        ensures { result ≡ any_free self.now }
    {
        match self.free_place() {
            Some(_) => true,
            None => false,
        }
    }

    /// The first free slice: the search goes on from the mark.
    #[tactic(auto, using(crate::proofs::Frees::slices_passed, crate::proofs::Frees::current_passed, crate::proofs::Frees::job_passed, crate::proofs::Frees::all_passed, crate::proofs::Frees::first_free))]
    fn free_place(&self) -> Option<FreeSlice<'_>>
        ensures { MatchOption result (any_free self.now ≡ false) (λ p. IsFirstFree self.now p.job.now p.place p.slice) }
    {
        let mut from = self.mark.slice as usize;
        for place in self.mark.job..self.jobs.len() {
            let job = &self.jobs[place];
            if let Some(slice) = self.free_slice(job, from) {
                return Some(FreeSlice { place, job, slice });
            }
            from = 0;
        }
        None
    }

    /// The lowest free slice of a job, where none before this place is free, and the job isn't replaced if the place isn't its first.
    #[tactic(auto, using(crate::proofs::Frees::closed_taken, crate::proofs::Frees::replaced_taken, crate::proofs::Frees::open_free, crate::proofs::Frees::slice_passed, crate::proofs::Frees::none_here))]
    fn free_slice(&self, job: &Job, from: usize) -> Option<u16>
        requires passed { IsNoneBefore self.now job.now from }
        requires current { 0 < from → is_replaced self.now job.now ≡ false }
        ensures { MatchOption result (has_free self.now job.now ≡ false)
            (λ i. IsFreeAt self.now job.now i × IsNoneBefore self.now job.now i) }
    {
        let slices = job.slices();
        for place in from..slices.len() {
            if self.is_open(job, place as u16, slices[place]) {
                if self.is_replaced_at(job, from) {
                    return None;
                }
                return Some(place as u16);
            }
        }
        None
    }

    /// Whether a job is replaced. If the search begins behind its first slice, it isn't.
    fn is_replaced_at(&self, job: &Job, from: usize) -> bool
        requires { 0 < from → is_replaced self.now job.now ≡ false }
        ensures { result ≡ is_replaced self.now job.now }
    {
        if from > 0 {
            return false;
        }
        self.is_replaced(job)
    }

    /// Whether a slice is neither returned nor claimed.
    fn is_open(&self, job: &Job, place: u16, slice: Slice) -> bool
        ensures { result ≡ (not slice.returned && not (is_claimed self.now.live job.now.number place)) }
    {
        !slice.returned && !self.live.holds(job.number(), place)
    }
}

/// Whether a result is of the slice, range and work of its claim.
fn is_own(claim: &Live, job: &Job, piece: &Piece) -> bool
    ensures { IsTrue result ↔ IsOwn claim.now job.now (shown piece.now) }
{
    piece.slice() == claim.slice
        && job.has_range(piece.slice(), piece.from(), piece.to())
        && piece.work().same(job.work())
}
