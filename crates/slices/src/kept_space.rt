//! What serves one piece after another.

ghost use Rattle.std.specs.Prelude.{◌≡◌, ◌↔◌, IfOk, IsTrue};
ghost use Rattle.candidates.specs.Candidates.{choices_of};
ghost use Rattle.slices.specs.Passing.{NoneAllowed};
ghost use Rattle.slices.specs.Works.{WorkValue};

use crate::finding::{Finding, FindingRef};
use crate::piece::{Piece, PieceResult, evaluate_in, evaluator_of, space_of};
use crate::pruning::Pruner;
use crate::span::Span;
use crate::work::WorkRef;
use candidates::{PausedWalk, Space};
use cat_eval::Prepared;
use litmus_value::Test;
use std::alloc::{AllocError, Global};
use std::marker::Model;

/// A work with the numbered candidates of its test, where the walk over them came to, with its model made ready, and what is found where that
/// allows no execution. Contracts see the work. What is large lies elsewhere, since a value of this type is moved for each piece.
struct Made {
    work: WorkRef,
    space: Box<Space>,
    paused: Box<PausedWalk>,
    ready: Prepared,
    pruner: Box<Pruner>,
    nothing: FindingRef,
}

// Functions of their own, here and below: whoever holds one drops it by a call.
impl Drop for Made {
    fn drop(self) {
        let Made {
            work: _,
            space: _,
            paused: _,
            ready: _,
            pruner: _,
            nothing: _,
        } = self;
    }
}

impl Model for Made {
    ghost use Rattle.std.specs.Prelude.{◌≡◌, List, []};
    ghost use Rattle.candidates.specs.Candidates.{choices_of};
    ghost use Rattle.candidates.specs.Walks.{IsPausedIn};
    ghost use Rattle.cat_eval.specs.Prepared.{IsReadyFor};
    ghost use Rattle.cat_tree.specs.Tree.{Clause};
    ghost use Rattle.slices.specs.Codes.{coded_work};
    ghost use Rattle.slices.specs.Passing.{Knows};
    ghost use Rattle.slices.specs.Verdicts.{Tells};
    ghost use Rattle.slices.specs.Works.{WorkValue};

    ghost Value = { WorkValue };

    ghost coded = { coded_work };

    ghost view = { λ m. m.work };

    ghost invariant = { λ m. record { space : m.space.value ≡ choices_of m.work.test; paused : IsPausedIn m.space.value m.paused.value; ready : IsReadyFor m.work.model.items m.ready; known : Knows m.space.value m.work.model.items m.pruner.value; nothing : (items : List Clause) → Tells m.work.test items [] m.nothing } };
}

impl Made {
    /// What a work makes use of.
    #[inline(never)]
    fn of(alloc: Global, work: &WorkRef) -> Result<Self, AllocError>
        ensures { IfOk result (λ m. m ≡ work.now) }
    {
        let space = Box::new(alloc, space_of(alloc, work.work())?)?;
        Made::over(alloc, space, work)
    }

    /// What a work makes use of whose candidates these are.
    #[inline(never)]
    fn over(alloc: Global, space: Box<Space>, work: &WorkRef) -> Result<Self, AllocError>
        requires { space.value ≡ choices_of work.now.test }
        ensures { IfOk result (λ m. m ≡ work.now) }
    {
        let ready = evaluator_of(alloc, work.work())?.without_model();
        let pruner = Box::new(alloc, Pruner::new(alloc, work.work().model()))?;
        let paused = Box::new(alloc, PausedWalk::new(alloc))?;
        let found = Finding::nothing(alloc, work.share()?)?;
        let nothing = FindingRef::new(alloc, found)?;
        let work = work.share()?;
        Ok(Made {
            work,
            space,
            paused,
            ready,
            pruner,
            nothing,
        })
    }

    /// Whether it is that of this work.
    fn is_of(&self, work: &WorkRef) -> bool
        ensures { IsTrue result ↔ (self.now ≡ work.now) }
    {
        self.work.same(work)
    }

    /// Whether its candidates are those of this test.
    #[tactic(auto, using(litmus_tree::specs::Exact::litmus_exact))]
    fn is_over(&self, test: &Test) -> bool
        ensures { IsTrue result ↔ (self.now.test ≡ test.now) }
    {
        self.work.work().test() == test
    }

    /// The candidates.
    fn into_space(self) -> Box<Space>
        ensures { result.value ≡ choices_of self.test }
    {
        let Made {
            work: _,
            space,
            paused: _,
            ready: _,
            pruner: _,
            nothing: _,
        } = self;
        space
    }

    /// Whether a piece is of the work, and it is known that the work's model allows none of the executions at its numbers.
    fn has_refuted(&self, piece: &Piece) -> bool
        ensures same { IsTrue result → self.now ≡ piece.now.work }
        ensures none { IsTrue result → NoneAllowed piece.now.work.model.items (choices_of piece.now.work.test) piece.now.from piece.now.to }
    {
        self.pruner.has_refuted(piece.span()) && self.is_of(piece.work())
    }

    /// The result of a piece of the work, none of whose executions the work's model allows.
    fn refuted(&self, piece: &Piece) -> Result<PieceResult, AllocError>
        requires same { self.now ≡ piece.now.work }
        requires none { NoneAllowed piece.now.work.model.items (choices_of piece.now.work.test) piece.now.from piece.now.to }
        ensures { IfOk result (λ r. r.piece ≡ piece.now) }
    {
        let piece = piece.share()?;
        let nothing = self.nothing.share()?;
        Ok(PieceResult::new(piece, nothing))
    }

    /// Evaluates the numbers of a piece of the work.
    #[inline(never)]
    fn evaluate(self, alloc: Global, piece: &Piece) -> Result<(PieceResult, Made), AllocError>
        requires { self ≡ piece.now.work }
        ensures { IfOk result (λ p. p.0.piece ≡ piece.now) }
    {
        let Made {
            work,
            space,
            paused,
            ready,
            mut pruner,
            nothing,
        } = self;
        let Span { from, to } = piece.span();
        let mut walk = space.resume(Box::into_inner(paused), from, to);
        let mut evaluator = ready.with_model(alloc, piece.work().work().model())?;
        let result = evaluate_in(alloc, &mut walk, &mut evaluator, &mut pruner, piece)?;
        let ready = evaluator.without_model();
        let paused = Box::new(alloc, walk.pause())?;
        let made = Made {
            work,
            space,
            paused,
            ready,
            pruner,
            nothing,
        };
        Ok((result, made))
    }
}

/// What one piece leaves for the next one: the numbered candidates of its test, where the walk over them came to, and its model made ready. Each
/// piece of a job needs these, and its numbers often begin where those of the one before it end. Where the next piece is of another work,
/// they are made anew; the candidates only if it is of another test. It holds one work's at a time. A piece within the numbers that were refuted
/// last takes no walk.
pub struct KeptSpace {
    alloc: Global,
    made: Option<Made>,
}

impl Drop for KeptSpace {
    fn drop(self) {
        let KeptSpace { alloc: _, made: _ } = self;
    }
}

impl KeptSpace {
    /// Nothing yet.
    pub fn new(alloc: Global) -> Self {
        KeptSpace { alloc, made: None }
    }

    /// Evaluates the numbers of a piece as `evaluate` does, by what is kept where it is of the same work.
    pub fn evaluate(&mut self, piece: &Piece) -> Result<PieceResult, AllocError>
        ensures { IfOk result (λ r. r.piece ≡ piece.now) }
    {
        if let Some(made) = &self.made {
            if made.has_refuted(piece) {
                return made.refuted(piece);
            }
        }
        let made = self.take_for(piece.work())?;
        let (result, made) = made.evaluate(self.alloc, piece)?;
        self.made = Some(made);
        Ok(result)
    }

    /// What a work makes use of: what is kept, or new.
    fn take_for(&mut self, work: &WorkRef) -> Result<Made, AllocError>
        ensures { IfOk result (λ m. m ≡ work.now) }
    {
        match self.made.take() {
            Some(made) if made.is_of(work) => Ok(made),
            Some(made) if made.is_over(work.work().test()) => {
                Made::over(self.alloc, made.into_space(), work)
            }
            _ => Made::of(self.alloc, work),
        }
    }
}
