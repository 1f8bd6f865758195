//! What a model is known to forbid together, or to allow, so that it needn't be judged one by one.

ghost use Rattle.std.specs.Prelude.{◌≡◌, ◌+◌, List, MatchBool, Some, IfOk, IfSome, IsTrue};
ghost use Rattle.candidates.specs.Candidates.{Choices, graph_at};
ghost use Rattle.cat_tree.specs.Tree.{Clause};
ghost use Rattle.events.specs.Structures.{structure_of};
ghost use Rattle.slices.specs.Judgements.{IsSaid};
ghost use Rattle.slices.specs.Lessons.{AreLearned};
ghost use Rattle.slices.specs.Passing.{ArePassed, HasGoneOver, IsForbidden, Knows, NoneAllowed};

use crate::judged::Judged;
use crate::lesson::Forbidden;
use crate::lessons::Lessons;
use crate::prospects::Prospects;
use crate::span::Span;
use candidates::Walk;
use cat_eval::{Evaluator, Judgement, is_orderless};
use cat_model::Model;
use cat_tree::Item;
use events::{Graph, Part};
use std::alloc::{AllocError, Global};

/// Passes over executions that a model forbids for a reason that they share, and finds those that it allows whatever their orders are.
pub struct Pruner {
    /// Whether a check of the model may tell that of executions of which not all is known.
    may_refute: bool,
    /// Whether it is known that the model doesn't look at the orders: what it says of a block then rests on nothing that places of writes tell.
    orderless: bool,
    prospects: Prospects,
    /// The numbers that were refuted last; none at first.
    refuted: Span,
    /// What was learned of features that no allowed execution has.
    lessons: Lessons,
}

// A function of its own: whoever holds one drops it by a call.
impl Drop for Pruner {
    fn drop(self) {
        let Pruner {
            may_refute: _,
            orderless: _,
            prospects: _,
            refuted: _,
            lessons: _,
        } = self;
    }
}

/// Whether an item forbids executions, and not for what they lack.
fn may_refute(item: &Item) -> bool {
    match item {
        Item::Check(check) => !check.flag && !check.negated,
        _ => false,
    }
}

impl Pruner {
    /// For executions that are judged under this model.
    pub fn new(alloc: Global, model: &Model) -> Self
        ensures known { (s : Choices) (items : List Clause) → Knows s items result }
    {
        Pruner {
            may_refute: model.items().iter().any(may_refute),
            orderless: is_orderless(model),
            prospects: Prospects::new(),
            refuted: Span { from: 0, to: 0 },
            lessons: Lessons::new(alloc),
        }
    }

    /// Begins with another walk, which goes on from this number: over what was refuted last, if the number is in it. What was asked
    /// before tells what is worth asking.
    pub(crate) fn begin(&mut self, walk: &mut Walk<'_>, from: u64)
        requires from { walk.old.next ≡ from }
        ensures refuted { self.new.refuted ≡ self.old.refuted }
        ensures lessons { self.new.lessons ≡ self.old.lessons }
        ensures passed { (items : List Clause) → Knows walk.old.space items self.old → HasGoneOver items walk.old walk.new }
    {
        self.prospects.begin(from);
        if self.refuted.from <= from {
            walk.pass(self.refuted.to);
        }
    }

    /// Whether it is known that the model allows none of the executions at these numbers.
    pub(crate) fn has_refuted(&self, span: Span) -> bool
        ensures { (s : Choices) (items : List Clause) → Knows s items self.now → IsTrue result → NoneAllowed items s span.from span.to }
    {
        self.refuted.from <= span.from && span.to <= self.refuted.to
    }

    /// The end of the block of a depth around the execution found last, if it is known that the model allows none of the block's.
    fn ask(
        &mut self,
        alloc: Global,
        evaluator: &mut Evaluator<'_>,
        walk: &Walk<'_>,
        depth: usize,
    ) -> Result<Option<u64>, AllocError>
        requires relied { IfSome evaluator.old.relied (λ s. s ≡ structure_of walk.now.shown) }
        ensures relied { IfSome evaluator.new.relied (λ s. s ≡ structure_of walk.now.shown) }
        ensures model { evaluator.new.items ≡ evaluator.old.items }
        ensures refuted { self.new.refuted ≡ self.old.refuted }
        ensures lessons { self.new.lessons ≡ self.old.lessons }
        ensures forbidden { IfOk result (λ end. IfSome end (IsForbidden evaluator.old.items walk.now)) }
    {
        if !self.prospects.pay(depth) {
            return Ok(None);
        }
        let block = match walk.block(depth) {
            Some(block) => block,
            None => return Ok(None),
        };
        if !evaluator.refutes(alloc, walk.graph(), Part::Cut(block.cut))? {
            return Ok(None);
        }
        self.prospects.earn(depth);
        Ok(Some(block.end))
    }

    /// A block around the execution at this number, which the walk found last, in which it is known that the evaluator's model allows none: the coarsest that is
    /// found by asking, or the widest of which that was learned.
    fn forbidden_around(
        &mut self,
        alloc: Global,
        evaluator: &mut Evaluator<'_>,
        walk: &Walk<'_>,
        number: u64,
    ) -> Result<Option<u64>, AllocError>
        requires found { walk.now.next ≡ number + 1 }
        requires shown { graph_at walk.now.space number ≡ Some walk.now.shown }
        requires relied { IfSome evaluator.old.relied (λ s. s ≡ structure_of walk.now.shown) }
        requires learned { AreLearned walk.now.space evaluator.old.items self.old.lessons }
        ensures relied { IfSome evaluator.new.relied (λ s. s ≡ structure_of walk.now.shown) }
        ensures model { evaluator.new.items ≡ evaluator.old.items }
        ensures refuted { self.new.refuted ≡ self.old.refuted }
        ensures learned { AreLearned walk.now.space evaluator.old.items self.new.lessons }
        ensures forbidden { IfOk result (λ end. IfSome end (IsForbidden evaluator.old.items walk.now)) }
    {
        let learned = self.lessons.forbidden_around(walk, number);
        let depths = learned.map_or(walk.depths(), |block| block.depth);
        for depth in self.prospects.leave(number)..depths {
            if self.orderless && walk.knows_places(depth) {
                break;
            }
            if let Some(end) = self.ask(alloc, evaluator, walk, depth)? {
                return Ok(Some(end));
            }
            self.prospects.enter(depth, walk.end_of(depth));
        }
        match learned {
            Some(block) => {
                self.prospects.forbid();
                Ok(Some(block.end))
            }
            None => Ok(None),
        }
    }

    /// Goes on over the execution at this number, which the walk found last, and over a block around it, if it is known that the
    /// evaluator's model allows none of these.
    pub fn passes(
        &mut self,
        alloc: Global,
        evaluator: &mut Evaluator<'_>,
        walk: &mut Walk<'_>,
        number: u64,
    ) -> Result<bool, AllocError>
        requires found { walk.old.next ≡ number + 1 }
        requires shown { graph_at walk.old.space number ≡ Some walk.old.shown }
        requires relied { IfSome evaluator.old.relied (λ s. s ≡ structure_of walk.old.shown) }
        requires known { Knows walk.old.space evaluator.old.items self.old }
        ensures relied { IfSome evaluator.new.relied (λ s. s ≡ structure_of walk.old.shown) }
        ensures model { evaluator.new.items ≡ evaluator.old.items }
        ensures known { Knows walk.old.space evaluator.old.items self.new }
        ensures passed { IfOk result (λ passed. MatchBool passed (ArePassed evaluator.old.items number walk.old walk.new) (walk.new ≡ walk.old)) }
    {
        if !self.may_refute || self.prospects.are_early() {
            return Ok(false);
        }
        let Some(end) = self.forbidden_around(alloc, evaluator, walk, number)? else {
            return Ok(false);
        };
        self.refuted = Span {
            from: number,
            to: end,
        };
        walk.pass(end);
        Ok(true)
    }

    /// What is said at once of the executions of the block of a depth that begins with the one found last, if it is known that the model
    /// allows all of them.
    fn open(
        &mut self,
        alloc: Global,
        evaluator: &mut Evaluator<'_>,
        walk: &Walk<'_>,
        depth: usize,
    ) -> Result<Option<Judged>, AllocError>
        requires relied { IfSome evaluator.old.relied (λ s. s ≡ structure_of walk.now.shown) }
        ensures relied { IfSome evaluator.new.relied (λ s. s ≡ structure_of walk.now.shown) }
        ensures model { evaluator.new.items ≡ evaluator.old.items }
        ensures refuted { self.new.refuted ≡ self.old.refuted }
        ensures lessons { self.new.lessons ≡ self.old.lessons }
        ensures said { IfOk result (λ r. IfSome r (IsSaid evaluator.old.items walk.now)) }
    {
        if !self.prospects.may_open(depth) {
            return Ok(None);
        }
        let open = match walk.open_block(depth) {
            Some(open) => open,
            None => return Ok(None),
        };
        self.prospects.pay_open(depth);
        let judgement = match evaluator.judge_opened(alloc, walk.graph(), open.cut)? {
            Some(judgement) => judgement,
            None => return Ok(None),
        };
        self.prospects.earn_open(depth);
        Ok(Some(Judged {
            judgement,
            open: Some(open.orders),
        }))
    }

    /// What is said at once of the executions of a block that begins with the one found last, if it is known that the model allows all of them. The blocks
    /// that were entered with that execution are asked, from the coarsest inwards.
    pub(crate) fn judge_block(
        &mut self,
        alloc: Global,
        evaluator: &mut Evaluator<'_>,
        walk: &Walk<'_>,
    ) -> Result<Option<Judged>, AllocError>
        requires relied { IfSome evaluator.old.relied (λ s. s ≡ structure_of walk.now.shown) }
        ensures relied { IfSome evaluator.new.relied (λ s. s ≡ structure_of walk.now.shown) }
        ensures model { evaluator.new.items ≡ evaluator.old.items }
        ensures refuted { self.new.refuted ≡ self.old.refuted }
        ensures lessons { self.new.lessons ≡ self.old.lessons }
        ensures said { IfOk result (λ r. IfSome r (IsSaid evaluator.old.items walk.now)) }
    {
        if self.prospects.opens() >= walk.depths() {
            return Ok(None);
        }
        self.judge_blocks(alloc, evaluator, walk)
    }

    // The same, where one of the blocks is worth asking.
    #[inline(never)]
    fn judge_blocks(
        &mut self,
        alloc: Global,
        evaluator: &mut Evaluator<'_>,
        walk: &Walk<'_>,
    ) -> Result<Option<Judged>, AllocError>
        requires relied { IfSome evaluator.old.relied (λ s. s ≡ structure_of walk.now.shown) }
        ensures relied { IfSome evaluator.new.relied (λ s. s ≡ structure_of walk.now.shown) }
        ensures model { evaluator.new.items ≡ evaluator.old.items }
        ensures refuted { self.new.refuted ≡ self.old.refuted }
        ensures lessons { self.new.lessons ≡ self.old.lessons }
        ensures said { IfOk result (λ r. IfSome r (IsSaid evaluator.old.items walk.now)) }
    {
        for depth in self.prospects.opens()..walk.depths() {
            if let Some(judged) = self.open(alloc, evaluator, walk, depth)? {
                return Ok(Some(judged));
            }
        }
        Ok(None)
    }

    /// Notes what was said of an execution that wasn't passed over.
    pub fn note(&mut self, judgement: &Judgement)
        ensures refuted { self.new.refuted ≡ self.old.refuted }
        ensures lessons { self.new.lessons ≡ self.old.lessons }
    {
        self.prospects.note(judgement.allowed());
    }

    /// Notes what was said of an execution that wasn't passed over, and learns from it.
    pub(crate) fn learn(
        &mut self,
        alloc: Global,
        evaluator: &mut Evaluator<'_>,
        graph: &Graph,
        judgement: &Judgement,
    ) -> Result<(), AllocError>
        requires relied { IfSome evaluator.old.relied (λ s. s ≡ structure_of graph.now) }
        ensures relied { IfSome evaluator.new.relied (λ s. s ≡ structure_of graph.now) }
        ensures model { evaluator.new.items ≡ evaluator.old.items }
        ensures refuted { self.new.refuted ≡ self.old.refuted }
        ensures learned { (s : Choices) → AreLearned s evaluator.old.items self.old.lessons → AreLearned s evaluator.old.items self.new.lessons }
    {
        self.note(judgement);
        if judgement.allowed() || !self.may_refute || self.prospects.are_early() {
            return Ok(());
        }
        self.lessons.learn(alloc, evaluator, graph)
    }
}
