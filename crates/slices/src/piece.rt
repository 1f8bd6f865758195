//! Pieces of a work's numbers, and what is found of them.

ghost use Rattle.std.specs.Prelude.{◌≡◌, IfOk, OnOk};
ghost use Rattle.candidates.specs.Candidates.{choices_of};
ghost use Rattle.slices.specs.Parts.{IsPart, IsRange};
ghost use Rattle.slices.specs.Passing.{Knows};

use crate::counting::count;
use crate::finding::FindingRef;
use crate::pruning::Pruner;
use crate::span::Span;
use crate::work::{Work, WorkRef};
use candidates::{Space, SpaceFault, Walk, nothing};
use cat_eval::Evaluator;
use std::alloc::{AllocError, Global};
use std::marker::Model;

/// The numbers from `from` to `to - 1` of a work, as a slice of a job, given under a claim.
pub struct Piece {
    claim: u32,
    job: u32,
    slice: u16,
    from: u64,
    to: u64,
    work: WorkRef,
}

// A function of its own: whoever holds one drops it by a call.
impl Drop for Piece {
    fn drop(self) {
        let Piece {
            claim: _,
            job: _,
            slice: _,
            from: _,
            to: _,
            work: _,
        } = self;
    }
}

impl Model for Piece {
    ghost use Rattle.slices.specs.Codes.{coded_piece};
    ghost use Rattle.slices.specs.Parts.{PieceValue, IsRange};

    ghost Value = { PieceValue };

    ghost coded = { coded_piece };

    ghost view = { λ p. record { claim = p.claim; job = p.job; slice = p.slice; from = p.from; to = p.to; work = p.work } };

    ghost invariant = { λ p. IsRange p.work.test p.from p.to };
}

/// What is found of a piece: it is right for the piece's work and range.
pub struct PieceResult {
    piece: Piece,
    found: FindingRef,
}

// A function of its own: whoever holds one drops it by a call.
impl Drop for PieceResult {
    fn drop(self) {
        let PieceResult { piece: _, found: _ } = self;
    }
}

impl Model for PieceResult {
    ghost use Rattle.slices.specs.Codes.{coded_piece_result};
    ghost use Rattle.slices.specs.Parts.{PieceResultValue, IsPart};

    ghost Value = { PieceResultValue };

    ghost coded = { coded_piece_result };

    ghost view = { λ r. record { piece = r.piece; found = r.found } };

    ghost invariant = { λ r. IsPart r.piece.work.test r.piece.work.model.items r.piece.from r.piece.to r.found };
}

/// Evaluates the numbers of a piece, one after another, under the model of its work.
pub fn evaluate(alloc: Global, piece: &Piece) -> Result<PieceResult, AllocError>
    ensures { IfOk result (λ r. r.piece ≡ piece.now) }
{
    let work = piece.work.work();
    let space = space_of(alloc, work)?;
    let mut evaluator = evaluator_of(alloc, work)?;
    let mut pruner = Pruner::new(alloc, work.model());
    let Span { from, to } = piece.span();
    let mut walk = space.walk(alloc, from, to);
    evaluate_in(alloc, &mut walk, &mut evaluator, &mut pruner, piece)
}

/// The numbered candidates of a work's test.
pub fn space_of(alloc: Global, work: &Work) -> Result<Space, AllocError>
    ensures { IfOk result (λ s. s ≡ choices_of work.now.test) }
{
    prove!(work.size() <= u64::MAX);
    match Space::new(alloc, work.test()) {
        Ok(space) => Ok(space),
        Err(SpaceFault::NoMemory) => Err(AllocError),
        Err(SpaceFault::TooManyRuns(_)) => unreachable!(),
        Err(SpaceFault::TooManyCandidates) => unreachable!(),
    }
}

/// An evaluator of a work's model.
pub fn evaluator_of<'w>(alloc: Global, work: &'w Work) -> Result<Evaluator<'w>, AllocError>
    ensures { IfOk result (λ e. e.items ≡ work.entry.now.model.items) }
{
    let none = nothing(alloc);
    Evaluator::of(alloc, work.model(), &none)
}

/// Evaluates a piece by a walk over its numbers among the candidates of its test, and by an evaluator of its work's model.
pub fn evaluate_in(
    alloc: Global,
    walk: &mut Walk<'_>,
    evaluator: &mut Evaluator<'_>,
    pruner: &mut Pruner,
    piece: &Piece,
) -> Result<PieceResult, AllocError>
    requires space { walk.old.space ≡ choices_of piece.now.work.test }
    requires from { walk.old.next ≡ piece.now.from }
    requires to { walk.old.to ≡ piece.now.to }
    requires evaluator { evaluator.old.items ≡ piece.now.work.model.items }
    requires known { Knows (choices_of piece.now.work.test) piece.now.work.model.items pruner.old }
    ensures piece { IfOk result (λ r. r.piece ≡ piece.now) }
    ensures evaluator { evaluator.new.items ≡ evaluator.old.items }
    ensures space { OnOk result (walk.new.space ≡ walk.old.space) }
    ensures known { OnOk result (Knows (choices_of piece.now.work.test) piece.now.work.model.items pruner.new) }
{
    let piece = piece.share()?;
    let finding = count(alloc, &piece.work, piece.from, walk, evaluator, pruner)?;
    let found = FindingRef::new(alloc, finding)?;
    Ok(PieceResult::new(piece, found))
}

impl Piece {
    /// The piece with these fields.
    pub fn new(claim: u32, job: u32, slice: u16, from: u64, to: u64, work: WorkRef) -> Self
        requires { IsRange work.test from to }
        ensures { result ≡ record { claim = claim; job = job; slice = slice; from = from; to = to; work = work } }
    {
        Piece {
            claim,
            job,
            slice,
            from,
            to,
            work,
        }
    }

    /// The number of the claim under which it was given.
    pub fn claim(&self) -> u32
        ensures { result ≡ self.now.claim }
    {
        self.claim
    }

    /// The number of the job.
    pub fn job(&self) -> u32
        ensures { result ≡ self.now.job }
    {
        self.job
    }

    /// The slice of the job.
    pub fn slice(&self) -> u16
        ensures { result ≡ self.now.slice }
    {
        self.slice
    }

    /// The first number.
    pub fn from(&self) -> u64
        ensures { result ≡ self.now.from }
    {
        self.from
    }

    /// The number behind the last.
    pub fn to(&self) -> u64
        ensures { result ≡ self.now.to }
    {
        self.to
    }

    /// Its numbers.
    pub fn span(&self) -> Span
        ensures value { result ≡ record { from = self.now.from; to = self.now.to } }
        ensures range { IsRange self.now.work.test self.now.from self.now.to }
    {
        Span {
            from: self.from,
            to: self.to,
        }
    }

    /// The work.
    pub fn work(&self) -> &WorkRef
        ensures work { result.now ≡ self.now.work }
        ensures range { IsRange self.now.work.test self.now.from self.now.to }
    {
        &self.work
    }

    /// The same piece again.
    pub fn share(&self) -> Result<Self, AllocError>
        ensures { IfOk result (λ p. p ≡ self.now) }
    {
        Ok(Piece {
            claim: self.claim,
            job: self.job,
            slice: self.slice,
            from: self.from,
            to: self.to,
            work: self.work.share()?,
        })
    }
}

impl PieceResult {
    pub(crate) fn new(piece: Piece, found: FindingRef) -> Self
        requires { IsPart piece.work.test piece.work.model.items piece.from piece.to found }
        ensures { result ≡ record { piece = piece; found = found } }
    {
        PieceResult { piece, found }
    }

    /// The piece that was evaluated.
    pub fn piece(&self) -> &Piece
        ensures { result.now ≡ self.now.piece }
    {
        &self.piece
    }

    /// What is found of it.
    pub fn found(&self) -> &FindingRef
        ensures found { result.now ≡ self.now.found }
        ensures right { let piece = self.now.piece in
            IsPart piece.work.test piece.work.model.items piece.from piece.to self.now.found }
    {
        &self.found
    }

    /// The same result again.
    pub fn share(&self) -> Result<Self, AllocError>
        ensures { IfOk result (λ r. r ≡ self.now) }
    {
        Ok(PieceResult {
            piece: self.piece.share()?,
            found: self.found.share()?,
        })
    }
}
