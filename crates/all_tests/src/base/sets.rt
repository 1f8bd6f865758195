mod plain;

use crate::rows::expect;
use plain::{amiss, amiss_of_sets, pair_count, relation, set};
use relations::{Places, Rel, Set};
use std::process::Abort;

/// Has the first relation just the pairs of the second?
fn are_same(r: &Rel, s: &Rel) -> bool {
    r.count() == s.count() && r.is_within(s) && s.is_within(r)
}

/// Is the closure of two steps three pairs, and is there a cycle only once a third step leads back?
fn are_closed() -> bool {
    let mut steps = Rel::empty(3);
    steps.insert(0, 1);
    steps.insert(1, 2);
    let mut all_three = steps.copy();
    all_three.insert(0, 2);
    let are_closed = are_same(&steps.plus(), &all_three) && steps.is_acyclic();
    steps.insert(2, 0);
    are_closed && !steps.is_acyclic() && steps.is_irreflexive()
}

/// Have the closures of a chain of 64 events so many pairs, without and with each event itself?
fn is_chain_closed() -> bool {
    let mut steps = Rel::empty(64);
    for i in 0..63 {
        steps.insert(i, i + 1);
    }
    pair_count(&steps.plus()) == 2016 && pair_count(&steps.star()) == 2080 && steps.is_acyclic()
}

/// Are full sets and relations full, and empty ones empty, at the greatest and the least count?
fn are_full_and_empty() -> bool {
    Rel::full(64).complement().is_empty()
        && Rel::full(0).is_empty()
        && Set::full(64).complement().is_empty()
        && Set::full(0).is_empty()
        && !Rel::id(64).is_acyclic()
        && Rel::id(0).is_acyclic()
}

/// Have the places 3 and 63, in one set, and no other place of it or past it?
fn are_just_two(places: &Places) -> bool {
    for place in 0..70 {
        if places.contains(place) != (place == 3 || place == 63) {
            return false;
        }
    }
    true
}

/// Are the places of a run joined, compared and copied as they are?
fn are_places() -> bool {
    let two = Places::just(3).union(&Places::just(63));
    are_just_two(&two)
        && are_just_two(&two.copy().union(&Places::just(64)))
        && two.is_same(&two.copy())
        && !two.is_same(&Places::just(3))
        && Places::just(64).is_same(&Places::none())
}

#[test]
fn closures_counts_and_places(rt: HostRuntime) {
    expect(&rt, "closures", are_closed());
    expect(&rt, "a chain of 64 events", is_chain_closed());
    expect(
        &rt,
        "the greatest and the least count",
        are_full_and_empty(),
    );
    expect(&rt, "places of a run", are_places());
}

/// Fails with the name of what is amiss.
fn expect_none(rt: &impl Abort, among: &str, amiss: Option<&str>) {
    if let Some(name) = amiss {
        panic!(rt; "{among}: {name}");
    }
}

fn all_relations_on_two_events(rt: &impl Abort) {
    for first in 0..16 {
        for second in 0..16 {
            let amiss = amiss(&relation(2, first), &relation(2, second));
            expect_none(rt, "all relations on two events", amiss);
        }
    }
}

fn many_relations_on_three_to_five_events(rt: &impl Abort) {
    let mut code = 1_u32;
    for _ in 0..100 {
        for count in 3..6 {
            let first = relation(count, code);
            code = code.wrapping_mul(1_664_525).wrapping_add(1_013_904_223);
            let amiss = amiss(&first, &relation(count, code));
            expect_none(rt, "many relations on three to five events", amiss);
        }
    }
}

fn all_sets_on_three_events(rt: &impl Abort) {
    for first in 0..8 {
        for second in 0..8 {
            let amiss = amiss_of_sets(&set(3, first), &set(3, second));
            expect_none(rt, "all sets on three events", amiss);
        }
    }
}

#[test]
fn relations_and_sets(rt: HostRuntime) {
    all_relations_on_two_events(&rt);
    many_relations_on_three_to_five_events(&rt);
    all_sets_on_three_events(&rt);
}
