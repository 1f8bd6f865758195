//! Why a model forbids an execution, and what relates two events, expected by hand after the definitions of the language.
//!
//! The initial writes have the first numbers, those of x and of y, then come the events of the threads.

use crate::rows::{all_answered, number_of};
use crate::why::made::{execution, model};
use crate::why::texts::{STORE_BUFFERING, text_of};
use cat_model::Model;
use events::Graph;
use std::alloc::{AllocError, Global};
use wb_text::Name;
use witness::{Evidence, Reason, labels, reason};

/// Why the first execution of a test that has its proposition is forbidden by a model: the place of the check that fails among the items,
/// the check, its name, and what shows it. A cycle is told from its least event on.
const REASONS: &str = "SB: acyclic po | rf | co | fr as sc ==> 0 Acyclic sc cycle 2 3 4 5
IRIW: let com = rf | co | fr acyclic po | com as sc ==> 1 Acyclic sc cycle 2 4 5 3 6 7
# Beside the cycle of four events there is one of three.
MP: let back = (rf ; po)^-1 acyclic po | rf | fr | back ==> 1 Acyclic - cycle 3 4 5
MP: irreflexive po ; rf ; po ; fr as message ==> 0 Irreflexive message itself 2
MP: empty rmw empty fr as late ==> 1 Empty late pair 5 2
W: empty R empty IW ==> 1 Empty - member 0
MP: ~empty rf ~acyclic po | rf as twisted ==> 1 ~Acyclic twisted denied
# Of two checks that fail the first is told, and one with a flag is no reason.
MP: acyclic po flag ~empty fr as seen empty rf & po empty fr as first empty rf as second ==> 3 Empty first pair 5 2
MP: flag empty rmw as raised acyclic po ==> allowed
MP: rc11.cat ==> allowed
# A name stands for its latest binding before the check.
MP: let fr = rmw empty fr let fr = po empty rf & fr acyclic fr | rf ==> allowed";

/// Adds numbers, each with a blank before it.
pub fn push_numbers(text: &mut String, numbers: &[usize]) -> Result<(), AllocError> {
    for number in numbers {
        write!(text, " {number}")?;
    }
    Ok(())
}

/// The place of the least event.
fn place_of_least(events: &[usize]) -> usize {
    let mut least = usize::MAX;
    let mut found = 0;
    for (place, event) in events.iter().enumerate() {
        if *event < least {
            least = *event;
            found = place;
        }
    }
    found
}

/// A cycle, from its least event on and round to it.
fn cycle_shown(alloc: Global, events: &[usize]) -> Result<String, AllocError> {
    let mut text = String::from_str(alloc, "cycle")?;
    let (before, behind) = events.split_at(place_of_least(events).min(events.len()));
    push_numbers(&mut text, behind)?;
    push_numbers(&mut text, before)?;
    Ok(text)
}

/// What shows that a check fails.
fn evidence_shown(alloc: Global, evidence: &Evidence) -> Result<String, AllocError> {
    match evidence {
        Evidence::Cycle(events) => cycle_shown(alloc, events),
        Evidence::Itself(event) => format!(in alloc; "itself {event}"),
        Evidence::Pair(from, to) => format!(in alloc; "pair {from} {to}"),
        Evidence::Member(event) => format!(in alloc; "member {event}"),
        Evidence::Denied => format!(in alloc; "denied"),
    }
}

fn reason_shown(alloc: Global, reason: &Reason) -> Result<String, AllocError> {
    let evidence = evidence_shown(alloc, &reason.evidence)?;
    let (number, kind) = (reason.number, reason.kind);
    let sign = if reason.negated { "~" } else { "" };
    match &reason.name {
        Some(name) => format!(in alloc; "{number} {sign}{kind:?} {name} {evidence}"),
        None => format!(in alloc; "{number} {sign}{kind:?} - {evidence}"),
    }
}

/// Why a model forbids an execution.
fn told(alloc: Global, model: &Model, execution: &Graph) -> Result<String, AllocError> {
    let told = reason(alloc, model, execution)?;
    match &told {
        Some(reason) => reason_shown(alloc, reason),
        None => String::from_str(alloc, "allowed"),
    }
}

fn told_in(alloc: Global, execution: &Graph, model_text: &str) -> Result<String, AllocError> {
    let model = model(alloc, model_text)?;
    told(alloc, &model, execution)
}

/// Why the model of a row forbids the first execution of its test that has the proposition.
pub fn why(alloc: Global, given: &str) -> Result<String, AllocError> {
    let (test, model) = given.split_once(": ").unwrap_or((given, ""));
    let execution = execution(alloc, text_of(test))?;
    told_in(alloc, &execution, model)
}

/// Two events of store buffering, how many items of a model come before, and the names that relate them.
const STEPS: &str = "3 4 1: let com = rf | co | fr acyclic po | com ==> fr loc ext fre com
3 4 0: let com = rf | co | fr acyclic po | com ==> fr loc ext fre
2 3 2: let com = rf | co | fr let hb = po | com acyclic hb ==> po int hb
# What is bound anew no longer stands for what it was written for, and comes where it was bound.
3 4 2: let fr = rf let ext = ext acyclic fr ==> loc fre ext
# Nor does the name of a function.
3 4 1: let fr(r) = r acyclic fr(po) ==> loc ext fre
5 2 9: acyclic po ==> fr loc ext fre";

/// The names, with blanks between them.
fn names_shown(alloc: Global, names: &[Name]) -> Result<String, AllocError> {
    let mut text = String::new(alloc);
    for name in names {
        if !text.is_empty() {
            text.push(' ')?;
        }
        write!(text, "{name}")?;
    }
    Ok(text)
}

/// Two events, and a number of items.
type Place = (usize, usize, usize);

fn place_of(words: &str) -> Option<Place> {
    let mut words = words.split(' ');
    let from = number_of(words.next());
    let to = number_of(words.next());
    match (from, to, number_of(words.next())) {
        (Some(from), Some(to), Some(before)) => Some((from, to, before)),
        _ => None,
    }
}

fn related_in(
    alloc: Global,
    execution: &Graph,
    model_text: &str,
    place: Place,
) -> Result<String, AllocError> {
    let (from, to, before) = place;
    let model = model(alloc, model_text)?;
    let names = labels(alloc, &model, execution, from, to, before)?;
    names_shown(alloc, &names)
}

/// The names that relate two events of store buffering by the model of a row.
pub fn names_between(alloc: Global, given: &str) -> Result<String, AllocError> {
    let (words, model) = given.split_once(": ").unwrap_or((given, ""));
    let execution = execution(alloc, STORE_BUFFERING)?;
    match place_of(words) {
        Some(place) => related_in(alloc, &execution, model, place),
        None => String::from_str(alloc, "no place"),
    }
}

#[test]
fn reasons(rt: HostRuntime) {
    let alloc = rt.alloc();
    all_answered(&rt, alloc, "the first check that fails", REASONS, why);
    all_answered(&rt, alloc, "names of steps", STEPS, names_between);
}
