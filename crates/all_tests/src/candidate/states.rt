//! Propositions at states, the places that conditions observe, and copies.

use crate::graphs::push_values;
use crate::litmus::read;
use crate::names::name;
use crate::reader::copies::bindings_are_copied;
use crate::rows::{again, all_hold, expect};
use conditions::{Cond, Kind, Place, Prop, State, holds, observed, ok_of};
use litmus_c::Test;
use std::alloc::{AllocError, Global};

/// A place as the tests write it: `x`, or `0:r0`.
fn place(alloc: Global, word: &str) -> Result<Place, AllocError> {
    match word.split_once(':') {
        Some((thread, register)) => match thread.parse::<usize>() {
            Ok(thread) => Ok(Place::Reg(thread, name(alloc, register.as_bytes())?)),
            Err(_) => Err(AllocError),
        },
        None => Ok(Place::Loc(name(alloc, word.as_bytes())?)),
    }
}

fn places(alloc: Global, words: &str) -> Result<Vec<Place>, AllocError> {
    let mut places = Vec::new(alloc);
    for word in words.split(' ') {
        places.push(place(alloc, word)?)?;
    }
    Ok(places)
}

/// A test whose condition is of this kind and, with these three values, `(0:r0=a => ~(1:r0=b)) /\ (x=c \/ false) /\ true`.
fn text_of(alloc: Global, kind: &str, values: [u32; 3]) -> Result<String, AllocError> {
    let [a, b, c] = values;
    format!(in alloc;
        "C T
{{ 0:r0=1; 1:r0=0; 0:r10=0; x; a }}
P0 () {{}}
P1 () {{}}
locations [a; 1:r0; x; 0:r10; a]
{kind} (0:r0={a} => ~(1:r0={b})) /\\ (x={c} \\/ false) /\\ true"
    )
}

fn test_of(alloc: Global, kind: &str, values: [u32; 3]) -> Result<Test, AllocError> {
    let text = text_of(alloc, kind, values)?;
    read(alloc, text.as_str())
}

/// Whether a proposition holds, or doesn't, where three places have these values, the second has its own there, and another place 0.
fn is_judged(prop: &Prop, places: &[Place], values: &[u32], other: &Place, wanted: bool) -> bool {
    if places.len() != 3 || values.len() != 3 {
        return false;
    }
    let state = State::new(places, values);
    holds(prop, &state) == wanted
        && state.value_of(&places[1]) == values[1]
        && state.value_of(other) == 0
}

/// Whether that holds of `0:r0`, `1:r0` and `x`, and of `y` as another.
fn is_judged_at(
    alloc: Global,
    prop: &Prop,
    values: &[u32],
    wanted: bool,
) -> Result<bool, AllocError> {
    let other = place(alloc, "y")?;
    let places = places(alloc, "0:r0 1:r0 x")?;
    Ok(is_judged(prop, &places, values, &other, wanted))
}

fn judges(alloc: Global, prop: &Prop, words: &str, wanted: bool) -> Result<bool, AllocError> {
    let mut values = Vec::new(alloc);
    push_values(&mut values, words)?;
    is_judged_at(alloc, prop, &values, wanted)
}

/// Whether the proposition with the values 1, 2 and 3 holds, or doesn't, where its places have these values.
fn is_so_at(alloc: Global, values: &str, wanted: &str) -> Result<bool, AllocError> {
    let test = test_of(alloc, "exists", [1, 2, 3])?;
    judges(alloc, test.condition().prop(), values, wanted == "true")
}

/// Values of the places, and whether the proposition holds there.
const STATES: &str = "1 2 3 ==> false
1 0 3 ==> true
0 2 3 ==> true
0 2 0 ==> false";

/// Whether a test is observed at these places, at each once.
pub fn observes(alloc: Global, test: &Test, words: &str) -> Result<bool, AllocError> {
    let found = again!(_, observed(alloc, test.condition(), test.listed()))?;
    let wanted = again!(_, places(alloc, words))?;
    Ok(found.as_slice() == wanted.as_slice())
}

/// Whether a test with the values 0, 0 and 0 is observed so, and the copies of its bindings are equal to them.
fn is_observed_and_copied(alloc: Global) -> Result<bool, AllocError> {
    let test = test_of(alloc, "exists", [0, 0, 0])?;
    Ok(observes(alloc, &test, "0:r0 0:r10 1:r0 a x")? && bindings_are_copied(test.initial())?)
}

/// Whether a condition is that of another test.
fn is_of(alloc: Global, condition: &Cond, values: [u32; 3]) -> Result<bool, AllocError> {
    let test = test_of(alloc, "forall", values)?;
    Ok(*condition == *test.condition())
}

/// Whether a condition is equal to the same once more, and not to one with another value of `x`.
fn is_equal_to_itself(alloc: Global) -> Result<bool, AllocError> {
    let test = test_of(alloc, "forall", [1, 2, 3])?;
    Ok(is_of(alloc, test.condition(), [1, 2, 3])? && !is_of(alloc, test.condition(), [1, 2, 4])?)
}

/// What a condition of a kind is where its proposition holds nowhere, at one execution of four, and at each.
fn answers(kind: Kind) -> [bool; 3] {
    [ok_of(kind, 0, 0), ok_of(kind, 1, 3), ok_of(kind, 4, 0)]
}

#[test]
fn conditions_and_places(rt: HostRuntime) {
    let alloc = rt.alloc();
    all_hold(&rt, alloc, "judges states", STATES, is_so_at);
    let is_observed = is_observed_and_copied(alloc).unwrap_or(false);
    expect(&rt, "observed places and copies of bindings", is_observed);
    let is_equal = is_equal_to_itself(alloc).unwrap_or(false);
    expect(&rt, "equal and other conditions", is_equal);
    let exists = answers(Kind::Exists);
    expect(&rt, "exists", exists == [false, true, true]);
    let not_exists = answers(Kind::NotExists);
    expect(&rt, "not exists", not_exists == [true, false, false]);
    let forall = answers(Kind::Forall);
    expect(&rt, "forall", forall == [true, false, true]);
}
