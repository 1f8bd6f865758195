//! What models say at once of all executions that differ from one in the places of some writes.

use crate::cat::judging::are_names;
use crate::cat::loading::is_so;
use crate::cat::refuting::judges_another;
use crate::graphs::{STORE_BUFFERING, graph};
use crate::rows::all_hold;
use cat_eval::{Evaluator, Judgement};
use cat_model::Model;
use events::{Cut, EventId, Order};
use std::alloc::{AllocError, Global};

/// Two threads that write two locations each, in turn.
///
/// Events 0 and 1 are the initial writes of x and y, 2 and 3 the writes of x and y of P0, 4 and 5 those of y and x of P1. So po is (2,3) (4,5),
/// and co (0,2) (0,5) (2,5) (1,4) (1,3) (4,3). Where the writes of x are open co has (5,2), too, and where those of y are open (3,4).
const TWO_WRITES_EACH: &str = "init 0 0
run | W 0 1 | W 1 1
run | W 1 2 | W 0 2
co i0 0.0 1.1
co i1 1.0 0.1";

/// In which of two cases a model is to be known to allow all executions: where the writes of x are open, and where those of y are, too.
#[derive(Clone, Copy)]
pub struct Opened {
    x: bool,
    both: bool,
}

/// The cases that a word names.
pub const OPENED: &[(&str, Opened)] = &[
    (
        "both",
        Opened {
            x: true,
            both: true,
        },
    ),
    (
        "x",
        Opened {
            x: true,
            both: false,
        },
    ),
    (
        "none",
        Opened {
            x: false,
            both: false,
        },
    ),
];

/// Whether it is told that all are allowed, with these flags; or nothing, where that isn't to be known.
fn is_told(judgement: &Option<Judgement>, known: bool, flags: &str) -> bool {
    match judgement {
        Some(judgement) => known && judgement.allowed() && are_names(judgement.flags(), flags),
        None => !known,
    }
}

/// All writes of the first locations are open, and these of the next one.
fn open(locations: usize, unplaced: &[EventId]) -> Cut<'_> {
    Cut {
        reads: 0,
        locations,
        unplaced,
    }
}

/// Whether this is known of a model and two writes of each location of this order, by an evaluator that judges the execution alone, too, and
/// then store buffering.
pub fn is_opened(
    alloc: Global,
    model: &Model,
    order: Order,
    opened: Opened,
    flags: &str,
) -> Result<bool, AllocError> {
    let execution = graph(alloc, TWO_WRITES_EACH, order)?;
    let first_of_x = [EventId::Own(0, 0)];
    let first_of_y = [EventId::Own(1, 0)];
    let mut evaluator = Evaluator::of(alloc, model, &execution)?;
    let x = evaluator.judge_opened(alloc, &execution, open(0, &first_of_x))?;
    let alone = evaluator.judge_next(alloc, &execution)?;
    let both = evaluator.judge_opened(alloc, &execution, open(1, &first_of_y))?;
    let other = graph(alloc, STORE_BUFFERING, Order::Rlx)?;
    let judges = judges_another(alloc, model, &mut evaluator, &other)?;
    Ok(
        is_told(&x, opened.x, flags)
            && (alone.allowed() || !opened.x)
            && is_told(&both, opened.both, flags)
            && judges,
    )
}

/// What looks at `co`, and can only come to fail, is told of where it holds though each open write stands before and behind the other one. A
/// check with `~`, a flag, and what takes away, tell of all executions as long as they don't look at `co`.
const JUDGED: &str = "# all executions
 ==> opened both
acyclic po ==> opened both
irreflexive co ==> opened both
empty co & po ==> opened both
empty co \\ loc ==> opened both
empty fr ==> opened both
irreflexive po ; co ==> opened both
let new(r) = r & po empty new(co) ==> opened both
let rec r = co | r ; r empty r & po ==> opened both
let rec a = co and b = ~rf empty a & po ==> opened both
~empty po ==> opened both
include \"rc11.cat\" ==> opened both
# with flags
flag ~empty po as order ==> opened both order
flag ~empty rf as read irreflexive co ==> opened both
include \"rc11.cat\" ==> na opened both data-race
# all in which the writes of y are ordered as they are: 2 3 4 5 is a cycle where they aren't
irreflexive po ; co ; po ; co ==> opened x
flag ~empty po as order irreflexive po ; co ; po ; co ==> opened x order
# some are forbidden
include \"rc11.cat\" ==> sc opened none
empty po ; co ; po ==> opened none
# all are
empty co ==> opened none
~empty 0 ==> opened none
# none is, and it isn't known
acyclic co ==> opened none
~empty co ==> opened none
empty 0 \\ co ==> opened none
irreflexive po \\ co ==> opened none
let rec a = co and b = ~co empty a & po ==> opened none
flag ~empty co as order ==> opened none";

#[test]
fn judged_at_once(rt: HostRuntime) {
    all_hold(&rt, rt.alloc(), "judged at once", JUDGED, is_so);
}
