//! What models say of all executions that go on from what is known of one.

use crate::cat::loading::is_so;
use crate::graphs::{STORE_BUFFERING, excerpt, graph};
use crate::rows::all_hold;
use cat_eval::{Evaluator, judge};
use cat_model::Model;
use events::{Cut, EventId, Graph, GraphView, Order, Part};
use std::alloc::{AllocError, Global};

/// Message passing, where the flag is seen and the first read of the message reads the initial write. What the second one reads is not
/// among what is known, nor are the places of later writes.
///
/// Events 0 and 1 are the initial writes of x and y, 2 and 3 the writes of x and y of P0, 4 to 6 the read of y and the reads of x of P1.
/// So po is (2,3) (4,5) (4,6) (5,6), rf (3,4) (0,5), co (0,2) (1,3), and fr (5,2).
const MESSAGE_PASSING: &str = "init 0 0
run | W 0 1 | W 1 1
run | R 1 1 | R 0 0 | R 0 1
rf 0.1 i0 0.0
co i0 0.0
co i1 0.1";

/// An exchange of x by each of two threads, both of which read the initial write; that of P0 stands first.
///
/// Event 0 is the initial write, 1 and 2 the read and the write of P0, 3 and 4 those of P1. So rmw is (1,2) (3,4), and co (0,2) (0,4) (2,4).
const TWO_EXCHANGES: &str = "init 0
run 0 | xR 0 0 | xW 0 1
run 0 | xR 0 0 | xW 0 2
rf i0 i0
co i0 0.1 1.1";

/// Whether an evaluator that forgets the runs of another execution judges this one as it is judged alone.
pub fn judges_another(
    alloc: Global,
    model: &Model,
    evaluator: &mut Evaluator<'_>,
    execution: &Graph,
) -> Result<bool, AllocError> {
    evaluator.forget_runs();
    let allowed = evaluator.judge_next(alloc, execution)?.allowed();
    let view = GraphView::of(alloc, execution)?;
    Ok(allowed == judge(alloc, model, &view)?.allowed())
}

/// Whether an evaluator says this of what is known of message passing, and says it again, and then judges store buffering right.
fn says_twice(
    alloc: Global,
    model: &Model,
    execution: &Graph,
    known: bool,
) -> Result<bool, AllocError> {
    let flag = [EventId::Own(0, 1)];
    let cut = Cut {
        reads: 2,
        locations: 1,
        unplaced: &flag,
    };
    let mut evaluator = Evaluator::of(alloc, model, execution)?;
    let first = evaluator.refutes(alloc, execution, Part::Cut(cut))?;
    let second = evaluator.refutes(alloc, execution, Part::Cut(cut))?;
    let other = graph(alloc, STORE_BUFFERING, Order::Rlx)?;
    let judges = judges_another(alloc, model, &mut evaluator, &other)?;
    Ok(first == known && second == known && judges)
}

/// Whether a model is known, or isn't known, to forbid all executions that go on from message passing of this order.
pub fn is_known(
    alloc: Global,
    model: &Model,
    order: Order,
    known: bool,
) -> Result<bool, AllocError> {
    let execution = graph(alloc, MESSAGE_PASSING, order)?;
    says_twice(alloc, model, &execution, known)
}

/// The sources of the reads of the two exchanges that are known, where the initial write of location 64 stands for the others.
fn sources_of<'a>(word: &str) -> &'a [EventId] {
    match word {
        "first" => &[EventId::Initial(0)],
        "second" => &[EventId::Initial(64), EventId::Initial(0)],
        "both" => &[EventId::Initial(0), EventId::Initial(0)],
        _ => &[],
    }
}

/// Whether a model is known, or isn't known, to forbid all executions with the events of the two exchanges in which the writes stand in the same order, and
/// the reads that a word names have the same sources.
pub fn is_excerpt_known(
    alloc: Global,
    model: &Model,
    word: &str,
    known: bool,
) -> Result<bool, AllocError> {
    let execution = graph(alloc, TWO_EXCHANGES, Order::Rlx)?;
    let Some(part) = excerpt(&execution, sources_of(word), 0) else {
        return Ok(false);
    };
    let mut evaluator = Evaluator::of(alloc, model, &execution)?;
    let refuted = evaluator.refutes(alloc, &execution, part)?;
    let judges = judges_another(alloc, model, &mut evaluator, &execution)?;
    Ok(refuted == known && judges)
}

/// Of each that is refuted nothing that goes on from message passing is allowed, whatever comes; of what is open nothing is said.
const REFUTED: &str = "# refuted
acyclic po | rf | co | fr ==> refuted
irreflexive po ; rf ; po ; fr ==> refuted
acyclic po empty fr let fr = 0 ==> refuted
empty ~po ==> refuted
empty fr \\ po ==> refuted
let rec r = fr | r ; r empty r ==> refuted
let rec a = b and b = po | rf ; a empty a ==> refuted
let new(r) = r \\ po empty new(fr) ==> refuted
include \"rc11.cat\" ==> sc refuted
# Of two exchanges. Where the second reads the initial write, that of the first stands between.
empty rmw & (fr ; co) ==> both refuted
empty rmw & (fr ; co) ==> second refuted
include \"rc11.cat\" ==> second refuted
empty rf ==> first refuted
empty rf ==> second refuted
empty fr ==> first refuted
empty co ==> neither refuted
# silent
empty rmw & (fr ; co) ==> first open
empty rmw & (fr ; co) ==> neither open
include \"rc11.cat\" ==> first open
empty rf ==> neither open
empty fr ==> neither open
~empty co ==> both open
acyclic po | rf | co | fr ==> both open
include \"rc11.cat\" ==> open
 ==> open
acyclic po | rf ==> open
~acyclic po ==> open
flag empty fr as none ==> open
empty ~co ==> open
empty fr ; rf ==> open
empty fr \\ co ==> open
let rec a = fr and b = ~rf empty a ==> open
let old(r) = po \\ r empty old(rf) ==> open";

#[test]
fn refuted(rt: HostRuntime) {
    all_hold(&rt, rt.alloc(), "refuted", REFUTED, is_so);
}
