//! The results of a work's slices, put together.

ghost use Rattle.std.specs.Prelude.{◌≡◌, ◌++◌, ◌∷◌, ◌+◌, [], ◌<◌, ◌≤◌, IfOk, IfErr, OnOk, OnErr};
ghost use Rattle.slices.specs.Parts.{test_size};
ghost use Rattle.slices.specs.Tallies.{IsApart, IsCover, IsTally, cut, span_of};
ghost use Rattle.slices.specs.Verdicts.{IsVerdict};

use crate::finding::{Finding, FindingRef};
use crate::piece::{Piece, PieceResult};
use crate::span::{Span, cut};
use crate::verdict::Verdict;
use crate::work::WorkRef;
use std::alloc::{AllocError, Global};
use std::marker::Model;

/// The results of a work so far: what they found together, and their ranges, in which no number stands twice. Contracts see the work and the
/// ranges.
pub struct Tally {
    work: WorkRef,
    spans: Vec<Span>,
    found: FindingRef,
}

// A function of its own: whoever holds one drops it by a call.
impl Drop for Tally {
    fn drop(self) {
        let Tally {
            work: _,
            spans: _,
            found: _,
        } = self;
    }
}

impl Model for Tally {
    ghost use Rattle.slices.specs.Codes.{coded_results};
    ghost use Rattle.slices.specs.Tallies.{IsTally, TallyValue};

    ghost Value = { TallyValue };

    ghost coded = { coded_results };

    ghost view = { λ t. record { work = t.work; spans = t.spans.items } };

    ghost invariant = { λ t. IsTally t.work.test t.work.model.items t.spans.items t.found };
}

impl Tally {
    /// A tally of no result.
    pub fn new(alloc: Global, work: WorkRef) -> Result<Self, AllocError>
        ensures { IfOk result (λ t. t ≡ record { work = work; spans = [] }) }
    {
        let finding = Finding::nothing(alloc, work.share()?)?;
        let found = FindingRef::new(alloc, finding)?;
        Ok(Tally {
            work,
            spans: Vec::new(alloc),
            found,
        })
    }

    /// The work.
    pub fn work(&self) -> &WorkRef
        ensures { result.now ≡ self.now.work }
    {
        &self.work
    }

    /// The ranges of the results so far, in the order in which they came.
    pub fn spans(&self) -> &[Span]
        ensures { result.now ≡ self.now.spans }
    {
        &self.spans
    }

    /// Adds a result, or hands it back. It costs one pass over the result's own states.
    pub fn merge(&mut self, part: PieceResult) -> Result<(), (PieceResult, AllocError)>
        requires work { part.piece.work ≡ self.old.work }
        requires apart { IsApart (span_of part) self.old.spans }
        ensures merged { OnOk result
            (self.new ≡ record self.old { spans = self.old.spans ++ span_of part ∷ [] }) }
        ensures same { OnErr result (self.new ≡ self.old) }
        ensures back { IfErr result (λ e. e.0 ≡ part) }
    {
        match self.add(&part) {
            Ok(()) => Ok(()),
            Err(AllocError) => Err((part, AllocError)),
        }
    }

    fn add(&mut self, part: &PieceResult) -> Result<(), AllocError>
        requires work { part.now.piece.work ≡ self.old.work }
        requires apart { IsApart (span_of part.now) self.old.spans }
        ensures merged { OnOk result
            (self.new ≡ record self.old { spans = self.old.spans ++ span_of part.now ∷ [] }) }
        ensures same { OnErr result (self.new ≡ self.old) }
    {
        let alloc = *self.spans.allocator();
        prove!(self.work.work().size() <= u64::MAX);
        let piece = part.piece();
        let span = piece.span();
        self.spans.push(span)?;
        match self.found.merge(alloc, part.found()) {
            Ok(()) => Ok(()),
            Err(AllocError) => {
                self.spans.pop();
                Err(AllocError)
            }
        }
    }

    /// The verdict on the work, where the results are over all its numbers. It shares what was found, and copies nothing.
    pub fn verdict(&self, test_version: u32) -> Result<Verdict, AllocError>
        requires { IsCover (test_size self.now.work.test) self.now.spans }
        ensures work { IfOk result (λ v. v.work ≡ self.now.work) }
        ensures version { IfOk result (λ v. v.version ≡ test_version) }
        ensures right { IfOk result (λ v. IsVerdict v.work.test v.work.model.items v.finding) }
    {
        Ok(Verdict::new(self.work.share()?, test_version, self.found.share()?))
    }
}

/// A slice of a work that is cut into so many.
pub(crate) fn slice_of(work: &WorkRef, total: u16, slice: u16) -> Result<Piece, AllocError>
    requires { slice < total }
    ensures work { IfOk result (λ p. p.work ≡ work.now) }
    ensures from { IfOk result (λ p. p.from ≡ cut (test_size work.now.test) total slice) }
    ensures to { IfOk result (λ p. p.to ≡ cut (test_size work.now.test) total (slice + 1)) }
{
    let size = work.work().size();
    let from = cut(size, total, slice);
    let to = cut(size, total, slice + 1);
    Ok(Piece::new(1, 1, slice, from, to, work.share()?))
}
