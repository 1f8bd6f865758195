//! Witnesses, closest executions and shortest cycles, expected by hand.

use crate::rows::{all_answered, number_of};
use crate::why::made::work;
use crate::why::reasons::push_numbers;
use crate::why::texts::text_of;
use events::EventId::Initial;
use events::Graph;
use relations::Rel;
use slices::Work;
use std::alloc::{AllocError, Global};
use witness::{closest, shortest_cycle, witness};

/// Tests and models, and what is found: the witness that has the proposition and the one that has it not, and the closest executions.
/// An execution is `initial` where both loads of store buffering read from initial writes.
const FOUND: &str = "SB: rc11.cat ==> initial other initial other
SB+sc: rc11.cat ==> nothing other initial other
# Each execution has an event.
W: empty id ==> nothing nothing other nothing
never: rc11.cat ==> nothing other nothing other";

fn told(found: Option<Graph>) -> &'static str {
    match found {
        Some(execution) => {
            if execution.rf() == [Initial(1), Initial(0)].as_slice() {
                "initial"
            } else {
                "other"
            }
        }
        None => "nothing",
    }
}

fn found_of(alloc: Global, work: &Work) -> Result<String, AllocError> {
    let witness_with = told(witness(alloc, work, true)?);
    let witness_without = told(witness(alloc, work, false)?);
    let with = told(closest(alloc, work, true)?);
    let without = told(closest(alloc, work, false)?);
    format!(in alloc; "{witness_with} {witness_without} {with} {without}")
}

/// What is found of the test and the model of a row.
pub fn found(alloc: Global, given: &str) -> Result<String, AllocError> {
    let (test, model) = given.split_once(": ").unwrap_or((given, ""));
    let work = work(alloc, text_of(test), model)?;
    found_of(alloc, &work)
}

/// Some pairs of a relation over five events, and its shortest cycle.
const RELATIONS: &str = " ==> none
0-1 1-2 0-2 3-4 ==> none
0-1 1-2 2-0 3-4 4-3 ==> cycle 3 4
0-1 1-0 2-2 ==> cycle 2";

/// A pair of two of the five events.
fn pair_of(words: &str) -> Option<(usize, usize)> {
    let mut words = words.split('-');
    match (number_of(words.next()), number_of(words.next())) {
        (Some(from), Some(to)) => Some((from, to)),
        _ => None,
    }
}

fn relation_of(pairs: &str) -> Option<Rel> {
    let mut relation = Rel::empty(5);
    for words in pairs.split_whitespace() {
        let (from, to) = pair_of(words)?;
        if from >= 5 || to >= 5 || relation.count() != 5 {
            return None;
        }
        relation.insert(from, to);
    }
    Some(relation)
}

/// The shortest cycle of a relation.
fn cycle_of(alloc: Global, relation: &Rel) -> Result<String, AllocError> {
    match &shortest_cycle(alloc, relation)? {
        Some(events) => {
            let mut text = String::from_str(alloc, "cycle")?;
            push_numbers(&mut text, events).and(Ok(text))
        }
        None => String::from_str(alloc, "none"),
    }
}

/// The shortest cycle of the pairs of a row.
fn cycle(alloc: Global, pairs: &str) -> Result<String, AllocError> {
    match relation_of(pairs) {
        Some(relation) => cycle_of(alloc, &relation),
        None => String::from_str(alloc, "no relation"),
    }
}

#[test]
fn searches(rt: HostRuntime) {
    let alloc = rt.alloc();
    all_answered(&rt, alloc, "first executions", FOUND, found);
    all_answered(&rt, alloc, "cycles", RELATIONS, cycle);
}
