//! What is said of executions that a walk found: of one, or of some one behind another at once.

ghost use Rattle.std.specs.Prelude.{◌≡◌, ◌-◌, Some, IfOk, IfSome};
ghost use Rattle.candidates.specs.Candidates.{Choices, graph_at};
ghost use Rattle.events.specs.Structures.{structure_of};
ghost use Rattle.slices.specs.Judgements.{IsSaid};
ghost use Rattle.slices.specs.Lessons.{AreLearned};

use crate::alike::alike_behind;
use crate::pruning::Pruner;
use crate::work::Work;
use candidates::{OpenOrders, Walk};
use cat_eval::{Evaluator, Judgement};
use std::alloc::{AllocError, Global};

/// What is said of the execution that a walk found last, and of all behind it that differ from it in these open orders alone. Where
/// there are none, it is said of that execution.
#[derive(Drop)]
pub(crate) struct Judged {
    pub(crate) judgement: Judgement,
    pub(crate) open: Option<OpenOrders>,
}

/// Judges the execution that a walk found last, and with it those behind it that differ from it in their orders alone, where the work's model doesn't look
/// at these.
fn judge_shown(
    alloc: Global,
    work: &Work,
    walk: &Walk<'_>,
    evaluator: &mut Evaluator<'_>,
    pruner: &mut Pruner,
) -> Result<Judged, AllocError>
    requires shown { graph_at walk.now.space (walk.now.next - 1) ≡ Some walk.now.shown }
    requires relied { IfSome evaluator.old.relied (λ s. s ≡ structure_of walk.now.shown) }
    requires model { evaluator.old.items ≡ work.now.model.items }
    ensures relied { IfSome evaluator.new.relied (λ s. s ≡ structure_of walk.now.shown) }
    ensures model { evaluator.new.items ≡ evaluator.old.items }
    ensures refuted { pruner.new.refuted ≡ pruner.old.refuted }
    ensures learned { (s : Choices) → AreLearned s evaluator.old.items pruner.old.lessons → AreLearned s evaluator.old.items pruner.new.lessons }
    ensures said { IfOk result (IsSaid evaluator.old.items walk.now) }
{
    let graph = walk.graph();
    let judgement = evaluator.judge_next(alloc, graph)?;
    pruner.learn(alloc, evaluator, graph, &judgement)?;
    let open = alike_behind(work, walk);
    Ok(Judged { judgement, open })
}

/// Judges the execution that a walk found last, and with it those behind it of which the same is known to be said.
pub(crate) fn judge(
    alloc: Global,
    work: &Work,
    walk: &Walk<'_>,
    evaluator: &mut Evaluator<'_>,
    pruner: &mut Pruner,
) -> Result<Judged, AllocError>
    requires shown { graph_at walk.now.space (walk.now.next - 1) ≡ Some walk.now.shown }
    requires relied { IfSome evaluator.old.relied (λ s. s ≡ structure_of walk.now.shown) }
    requires model { evaluator.old.items ≡ work.now.model.items }
    ensures relied { IfSome evaluator.new.relied (λ s. s ≡ structure_of walk.now.shown) }
    ensures model { evaluator.new.items ≡ evaluator.old.items }
    ensures refuted { pruner.new.refuted ≡ pruner.old.refuted }
    ensures learned { (s : Choices) → AreLearned s evaluator.old.items pruner.old.lessons → AreLearned s evaluator.old.items pruner.new.lessons }
    ensures said { IfOk result (IsSaid evaluator.old.items walk.now) }
{
    match pruner.judge_block(alloc, evaluator, walk)? {
        Some(judged) => Ok(judged),
        None => judge_shown(alloc, work, walk, evaluator, pruner),
    }
}
