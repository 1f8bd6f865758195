//! Jobs.

ghost use Rattle.std.specs.Prelude.{◌≡◌, ◌↔◌, ◌<◌, ◌≤◌, true, length, IfOk, OnOk, OnErr, IsTrue, slice_get};
ghost use Rattle.slices.specs.Parts.{IsAdmitted, test_size};
ghost use Rattle.slices.specs.Verdicts.{IsVerdict};
ghost use Rattle.book.specs.Jobs.{done, is_done, marked};
ghost use Rattle.book.specs.Listings.{root_of, row_of};
ghost use Rattle.book.specs.Results.{HasRoot, IsVerdictOn};
ghost use Rattle.book.specs.Step.{HasRange, IsCut};

use crate::cutting::cut;
use crate::slice::Slice;
use journal::JobRow;
use slices::{Piece, PieceResult, Tally, VerdictRef, WorkRef};
use std::alloc::{AllocError, Global};
use std::marker::Model;
use wb_text::Name;

/// A job: its work is cut into slices, and the results of those that are returned are merged. The verdict is kept once it was
/// asked for. Contracts see the job without the results and the verdict.
pub struct Job {
    number: u32,
    version: u32,
    slices: Vec<Slice>,
    // How many of the slices are returned.
    returned: usize,
    tally: Tally,
    verdict: Option<VerdictRef>,
}

// A function of its own: whoever holds one drops it by a call.
impl Drop for Job {
    fn drop(self) {
        let Job {
            number: _,
            version: _,
            slices: _,
            returned: _,
            tally: _,
            verdict: _,
        } = self;
    }
}

impl Model for Job {
    ghost use Rattle.book.specs.JobCodes.{coded_job};
    ghost use Rattle.book.specs.Jobs.{Job};
    ghost use Rattle.std.specs.Prelude.{◌≡◌, IfSome, count_by};
    ghost use Rattle.book.specs.Results.{IsTied, IsVerdictOn};

    ghost Value = { Job };

    ghost coded = { coded_job };

    ghost view = { λ j. record {
      number = j.number;
      version = j.version;
      work = j.tally.work;
      slices = j.slices.items;
    } };

    ghost invariant = { λ j. record { tied : IsTied j.tally j.slices.items; counted : j.returned ≡ count_by (λ x. x.returned) j.slices.items; kept : IfSome j.verdict (IsVerdictOn j.tally.work j.version) } };
}

impl Job {
    /// The job of a work, with nothing returned.
    #[tactic(auto, using(crate::proofs::Results::fresh_tied))]
    pub fn new(alloc: Global, number: u32, version: u32, work: WorkRef) -> Result<Self, AllocError>
        requires { HasRoot work.model.files }
        ensures number { IfOk result (λ j. j.number ≡ number) }
        ensures version { IfOk result (λ j. j.version ≡ version) }
        ensures work { IfOk result (λ j. j.work ≡ work) }
        ensures cut { IfOk result (λ j. IsCut (test_size work.test) j.slices) }
    {
        let slices = cut(alloc, work.work().size())?;
        let tally = Tally::new(alloc, work)?;
        Ok(Job {
            number,
            version,
            slices,
            returned: 0,
            tally,
            verdict: None,
        })
    }

    /// Its number.
    pub fn number(&self) -> u32
        ensures { result ≡ self.now.number }
    {
        self.number
    }

    /// The version of its test.
    pub fn version(&self) -> u32
        ensures { result ≡ self.now.version }
    {
        self.version
    }

    /// Its work.
    pub fn work(&self) -> &WorkRef
        ensures work { result.now ≡ self.now.work }
        ensures admitted { IsAdmitted self.now.work.test }
    {
        self.tally.work()
    }

    /// Its slices.
    pub fn slices(&self) -> &[Slice]
        ensures slices { result.now ≡ self.now.slices }
        ensures few { length self.now.slices ≤ 256 }
    {
        &self.slices
    }

    /// How many slices are returned.
    pub fn done(&self) -> usize
        ensures { result ≡ done self.now }
    {
        self.returned
    }

    /// How many are returned once this one is.
    #[tactic(auto, using(crate::proofs::Results::done_few, crate::proofs::Results::done_then, crate::proofs::Results::done_again, crate::proofs::Results::done_beyond))]
    pub fn done_with(&self, slice: u16) -> usize
        ensures { result ≡ done (marked slice self.now) }
    {
        match self.slices.get(slice as usize) {
            Some(slice) => {
                if slice.returned {
                    self.done()
                } else {
                    self.done() + 1
                }
            }
            None => self.done(),
        }
    }

    /// How many slices there are.
    pub fn total(&self) -> usize
        ensures { result ≡ length self.now.slices }
    {
        self.slices.len()
    }

    /// Whether all slices are returned.
    pub fn is_done(&self) -> bool
        ensures { result ≡ is_done self.now }
    {
        self.slices.iter().all(|slice| slice.returned)
    }

    /// The name of the root of its model.
    #[tactic(auto, using(crate::proofs::Results::root_first, crate::proofs::Results::some_root))]
    pub fn root(&self) -> &Name
        ensures { result.now ≡ root_of self.now.work.model.files }
    {
        match self.tally.work().work().model().files().get(0) {
            Some(file) => &file.name,
            None => unreachable!(),
        }
    }

    /// The job as it is listed.
    pub fn row(&self) -> Result<JobRow, AllocError>
        ensures { IfOk result (λ r. r ≡ row_of self.now) }
    {
        Ok(JobRow {
            number: self.number,
            test: self.work().work().test().name().copy()?,
            cat: self.root().copy()?,
            done: self.done(),
            total: self.total(),
        })
    }

    /// A slice, given under a claim.
    #[tactic(auto, using(crate::proofs::Results::get_here, crate::proofs::Results::is_range, crate::proofs::Results::has_range))]
    pub fn piece(&self, claim: u32, slice: u16) -> Result<Piece, AllocError>
        requires { slice < length self.now.slices }
        ensures claim { IfOk result (λ p. p.claim ≡ claim) }
        ensures job { IfOk result (λ p. p.job ≡ self.now.number) }
        ensures slice { IfOk result (λ p. p.slice ≡ slice) }
        ensures range { IfOk result (λ p. HasRange (slice_get self.now.slices slice) p.from p.to) }
        ensures work { IfOk result (λ p. p.work ≡ self.now.work) }
    {
        let range = self.slices[slice as usize];
        let work = self.work().share()?;
        Ok(Piece::new(claim, self.number, slice, range.from, range.to, work))
    }

    /// Whether a slice has this range.
    pub fn has_range(&self, slice: u16, from: u64, to: u64) -> bool
        ensures { IsTrue result ↔ HasRange (slice_get self.now.slices slice) from to }
    {
        match self.slices.get(slice as usize) {
            Some(slice) => slice.from == from && slice.to == to,
            None => false,
        }
    }

    /// Takes the result of a slice, or changes nothing. A slice that is returned keeps its first result.
    #[tactic(auto, using(crate::proofs::Results::inside, crate::proofs::Results::get_here, crate::proofs::Results::range_here))]
    pub fn take(&mut self, part: PieceResult) -> Result<(), AllocError>
        requires work { part.piece.work ≡ self.old.work }
        requires range { HasRange (slice_get self.old.slices part.piece.slice) part.piece.from part.piece.to }
        ensures ok { OnOk result (self.new ≡ marked part.piece.slice self.old) }
        ensures err { OnErr result (self.new ≡ self.old) }
    {
        let place = part.piece().slice() as usize;
        let slice = self.slices[place];
        if slice.returned {
            return Ok(());
        }
        match self.tally.merge(part) {
            Ok(()) => {
                self.slices[place] = Slice {
                    from: slice.from,
                    to: slice.to,
                    returned: true,
                };
                self.returned += 1;
                Ok(())
            }
            Err(_) => Err(AllocError),
        }
    }

    /// The verdict, where all is returned: the one that is kept, or one that is made from the results.
    #[tactic(auto, using(crate::proofs::Results::all_covered))]
    pub fn verdict(&self, alloc: Global) -> Result<VerdictRef, AllocError>
        requires { is_done self.now ≡ true }
        ensures work { IfOk result (λ v. v.work ≡ self.now.work) }
        ensures version { IfOk result (λ v. v.version ≡ self.now.version) }
        ensures right { IfOk result (λ v. IsVerdict v.work.test v.work.model.items v.finding) }
    {
        match &self.verdict {
            Some(verdict) => verdict.share(),
            None => VerdictRef::new(alloc, self.tally.verdict(self.version)?),
        }
    }

    /// Keeps a verdict for those who ask again.
    pub fn keep(&mut self, verdict: VerdictRef)
        requires { IsVerdictOn self.old.work self.old.version verdict }
        ensures { self.new ≡ self.old }
    {
        self.verdict = Some(verdict);
    }
}
