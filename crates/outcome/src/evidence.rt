//! What speaks against an execution: a check in words, and a chain of events.

ghost use Rattle.std.specs.Prelude.{◌≡◌, ◌++◌, map, option_map, IfOk, OnOk};
ghost use Rattle.outcome.specs.Reasons as texts;
ghost use Rattle.outcome.specs.Reasons.{GoesAlong};

use crate::explaining::Shown;
use cat_tree::CheckKind;
use drawing::{Chain, Step};
use std::alloc::{AllocError, Global};
use wb_text::Name;
use witness::{Evidence, Reason, labels};

/// The word of a check.
fn kind_text<'a>(kind: CheckKind) -> &'a [u8]
    ensures { result.now ≡ texts.kind_text kind }
{
    match kind {
        CheckKind::Acyclic => b"acyclic",
        CheckKind::Irreflexive => b"irreflexive",
        CheckKind::Empty => b"empty",
    }
}

/// Adds the name of a check, if it has one.
fn push_name(words: &mut Vec<u8>, name: &Option<Name>) -> Result<(), AllocError>
    ensures { OnOk result (words.new.items ≡ words.old.items ++ texts.name_text name.now) }
{
    match name {
        Some(name) => {
            words.push(b' ')?;
            words.extend_from_slice(name.bytes())
        }
        None => Ok(()),
    }
}

/// A check in words: `acyclic sc`, `~empty`.
pub(crate) fn words_of(alloc: Global, found: &Reason) -> Result<Vec<u8>, AllocError>
    ensures { IfOk result (λ v. v.items ≡ texts.check_text found.now) }
{
    let negation: &[u8] = if found.negated { b"~" } else { b"" };
    let mut words = Vec::from_slice(alloc, negation)?;
    words.extend_from_slice(kind_text(found.kind))?;
    push_name(&mut words, &found.name)?;
    Ok(words)
}

/// The evidence as a chain of arrows from each event to the next, if there is any.
pub(crate) fn chain_of(
    alloc: Global,
    shown: &Shown<'_>,
    found: &Reason,
) -> Result<Option<Chain>, AllocError>
    ensures { IfOk result (λ c. GoesAlong (texts.trail found.now.evidence) c) }
{
    let events = trail(alloc, &found.evidence)?;
    match events.split_first() {
        Some((first, rest)) => Ok(Some(Chain {
            first: *first,
            steps: steps_of(alloc, shown, *first, rest, found.number)?,
        })),
        None => Ok(None),
    }
}

/// The steps from an event to those behind it.
fn steps_of(
    alloc: Global,
    shown: &Shown<'_>,
    first: usize,
    rest: &[usize],
    before: usize,
) -> Result<Vec<Step>, AllocError>
    ensures { IfOk result (λ v. map (λ s. s.to) v.items ≡ rest.now) }
{
    let mut steps = Vec::new(alloc);
    let mut from = first;
    for to in rest {
        let labels = labels_of(alloc, shown, from, *to, before)?;
        steps.push(Step { to: *to, labels })?;
        from = *to;
    }
    Ok(steps)
}

/// The events of a cycle, which ends where it begins.
fn closed(alloc: Global, cycle: &[usize]) -> Result<Vec<usize>, AllocError>
    ensures { IfOk result (λ v. v.items ≡ texts.closed cycle.now) }
{
    let mut events = Vec::from_slice(alloc, cycle)?;
    if let Some(first) = cycle.first() {
        events.push(*first)?;
    }
    Ok(events)
}

/// The events of the evidence, each behind the one that leads to it.
fn trail(alloc: Global, evidence: &Evidence) -> Result<Vec<usize>, AllocError>
    ensures { IfOk result (λ v. v.items ≡ texts.trail evidence.now) }
{
    match evidence {
        Evidence::Cycle(cycle) => closed(alloc, cycle),
        Evidence::Itself(event) => Vec::from_slice(alloc, &[*event, *event]),
        Evidence::Pair(from, to) => Vec::from_slice(alloc, &[*from, *to]),
        Evidence::Member(event) => Vec::from_slice(alloc, &[*event]),
        Evidence::Denied => Ok(Vec::new(alloc)),
    }
}

/// The names that tell nothing of an arrow that its ends and its other names don't: of threads and locations, and of parts of rf, co and fr.
static PLAIN: [&[u8]; 11] = [
    b"int", b"ext", b"loc", b"po-loc", b"rfi", b"rfe", b"coi", b"coe", b"fri", b"fre", b"id",
];

/// Whether a name tells something of an arrow.
fn tells(name: &Name) -> bool {
    !PLAIN.contains(&name.bytes())
}

/// What relates two events, without the names that tell nothing more; all of them where there are no others. No contract says which they are.
fn labels_of(
    alloc: Global,
    shown: &Shown<'_>,
    from: usize,
    to: usize,
    before: usize,
) -> Result<Vec<Name>, AllocError> {
    let mut names = labels(alloc, shown.work.model(), shown.graph, from, to, before)?;
    if names.iter().any(tells) {
        names.retain(tells);
    }
    Ok(names)
}
