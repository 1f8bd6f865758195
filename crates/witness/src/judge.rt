//! Which executions are looked for: those that a model allows, or all.

ghost use Rattle.std.specs.Prelude.{◌≡◌, ◌+◌, ◌↔◌, [], Some, IfOk, IsTrue, MatchBool};
ghost use Rattle.candidates.specs.Candidates.{Choices, graph_at};
ghost use Rattle.cat_eval.specs.Judging.{Allowed};
ghost use Rattle.slices.specs.Passing.{ArePassed, Knows};
ghost use Rattle.witness.specs.Judges.{KnowsOf, judged};

use candidates::{Walk, nothing};
use cat_eval::Evaluator;
use cat_model::Model;
use events::Graph;
use slices::Pruner;
use std::alloc::{AllocError, Global};

/// A model that judges one execution after another.
pub struct ModelJudge<'m> {
    evaluator: Evaluator<'m>,
    pruner: Pruner,
}

// A function of its own: whoever holds one drops it by a call.
impl<'m> Drop for ModelJudge<'m> {
    fn drop(self) {
        let ModelJudge {
            evaluator: _,
            pruner: _,
        } = self;
    }
}

/// What decides whether an execution counts.
#[derive(Drop)]
pub enum Judge<'m> {
    /// A model.
    Model(ModelJudge<'m>),
    /// Nothing does: all count.
    All,
}

impl<'m> ModelJudge<'m> {
    fn new(alloc: Global, model: &'m Model) -> Result<Self, AllocError>
        ensures items { IfOk result (λ j. j.evaluator.items ≡ model.entry.now.items) }
        ensures known { IfOk result (λ j. (s : Choices) → Knows s j.evaluator.items j.pruner) }
    {
        let none = nothing(alloc);
        let evaluator = Evaluator::of(alloc, model, &none)?;
        let pruner = Pruner::new(alloc, model);
        Ok(ModelJudge { evaluator, pruner })
    }

    fn passes(
        &mut self,
        alloc: Global,
        walk: &mut Walk<'_>,
        number: u64,
    ) -> Result<bool, AllocError>
        requires found { walk.old.next ≡ number + 1 }
        requires shown { graph_at walk.old.space number ≡ Some walk.old.shown }
        requires known { Knows walk.old.space self.old.evaluator.items self.old.pruner }
        ensures items { self.new.evaluator.items ≡ self.old.evaluator.items }
        ensures known { Knows walk.old.space self.old.evaluator.items self.new.pruner }
        ensures passed { IfOk result (λ passed. MatchBool passed (ArePassed self.old.evaluator.items number walk.old walk.new) (walk.new ≡ walk.old)) }
    {
        self.evaluator.forget_runs();
        self.pruner.passes(alloc, &mut self.evaluator, walk, number)
    }

    fn allows(&mut self, alloc: Global, graph: &Graph) -> Result<bool, AllocError>
        ensures items { self.new.evaluator.items ≡ self.old.evaluator.items }
        ensures refuted { self.new.pruner.refuted ≡ self.old.pruner.refuted }
        ensures lessons { self.new.pruner.lessons ≡ self.old.pruner.lessons }
        ensures allowed { IfOk result (λ allowed. IsTrue allowed ↔ Allowed self.old.evaluator.items graph.now) }
    {
        self.evaluator.forget_runs();
        let judgement = self.evaluator.judge_next(alloc, graph)?;
        self.pruner.note(&judgement);
        Ok(judgement.allowed())
    }
}

impl<'m> Judge<'m> {
    /// By a model.
    pub fn by(alloc: Global, model: &'m Model) -> Result<Self, AllocError>
        ensures items { IfOk result (λ j. judged j ≡ model.entry.now.items) }
        ensures known { IfOk result (λ j. (s : Choices) → KnowsOf s j) }
    {
        Ok(Judge::Model(ModelJudge::new(alloc, model)?))
    }

    /// Goes on over the execution at this number, which the walk found last, and over others behind it, if it is known that none of
    /// them counts.
    pub fn passes(
        &mut self,
        alloc: Global,
        walk: &mut Walk<'_>,
        number: u64,
    ) -> Result<bool, AllocError>
        requires found { walk.old.next ≡ number + 1 }
        requires shown { graph_at walk.old.space number ≡ Some walk.old.shown }
        requires known { KnowsOf walk.old.space self.old }
        ensures items { judged self.new ≡ judged self.old }
        ensures known { KnowsOf walk.old.space self.new }
        ensures passed { IfOk result (λ passed. MatchBool passed (ArePassed (judged self.old) number walk.old walk.new) (walk.new ≡ walk.old)) }
    {
        match self {
            Judge::Model(judge) => judge.passes(alloc, walk, number),
            Judge::All => Ok(false),
        }
    }

    /// Whether an execution counts.
    pub fn allows(&mut self, alloc: Global, graph: &Graph) -> Result<bool, AllocError>
        ensures items { judged self.new ≡ judged self.old }
        ensures known { (s : Choices) → KnowsOf s self.old → KnowsOf s self.new }
        ensures allowed { IfOk result (λ allowed. IsTrue allowed ↔ Allowed (judged self.old) graph.now) }
    {
        match self {
            Judge::Model(judge) => judge.allows(alloc, graph),
            Judge::All => Ok(true),
        }
    }
}
