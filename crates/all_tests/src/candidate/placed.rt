//! At which depths of blocks places of writes are known.

use crate::candidate::blocks::WRITES_AND_READS;
use crate::candidate::opened::FOUR_PAIRS;
use crate::candidate::texts::holds_of;
use crate::rows::{again, expect};
use candidates::{Space, Walk};
use std::alloc::{AllocError, Global};

/// Two stores and a load: each choice of runs has 6 candidates, and 2 where the load's source is known. One place more, and no order is
/// left to choose.
const TWO_STORES: &str = "C T\n{}\n\
P0 (atomic_int* x) { atomic_store_explicit(x, 1, memory_order_relaxed); atomic_store_explicit(x, 2, memory_order_relaxed); int r0 = atomic_load_explicit(x, memory_order_relaxed); }\n\
exists (0:r0=1)\n";

/// Three stores, in 6 orders: 3 of them where it is known which of the last two comes first.
const THREE_STORES: &str = "C T\n{}\n\
P0 (atomic_int* x) { atomic_store_explicit(x, 1, memory_order_relaxed); atomic_store_explicit(x, 2, memory_order_relaxed); atomic_store_explicit(x, 3, memory_order_relaxed); }\n\
exists (x=1)\n";

/// Whether the depths around the execution found last are so many, places of writes are known at those where this says so, and also behind all.
fn are_known(walk: &Walk, depths: &[bool]) -> bool {
    for (depth, known) in depths.iter().enumerate() {
        if walk.knows_places(depth) != *known {
            return false;
        }
    }
    walk.depths() == depths.len() && walk.knows_places(depths.len())
}

/// Whether a walk that passes the numbers before this one finds it, with these depths.
fn finds(alloc: Global, walk: &mut Walk, number: u64, depths: &[bool]) -> Result<bool, AllocError> {
    walk.pass(number);
    Ok(again!(_, walk.next(alloc))? == Some(number) && are_known(walk, depths))
}

/// The runs, and what the load reads from.
fn has_two(alloc: Global, space: &Space) -> Result<bool, AllocError> {
    let mut walk = space.walk(alloc, 0, space.size());
    Ok(are_known(&walk, &[]) && finds(alloc, &mut walk, 0, &[false, false])?)
}

/// The runs, and a place.
fn has_three(alloc: Global, space: &Space) -> Result<bool, AllocError> {
    let mut walk = space.walk(alloc, 0, space.size());
    finds(alloc, &mut walk, 0, &[false, true])
}

/// The runs, what the first load reads from, what both do, and a place of x; the numbers from 48 on have other runs.
fn has_read(alloc: Global, space: &Space) -> Result<bool, AllocError> {
    let mut walk = space.walk(alloc, 0, space.size());
    let depths = [false, false, false, true];
    Ok(finds(alloc, &mut walk, 5, &depths)? && finds(alloc, &mut walk, 54, &depths)?)
}

/// The runs, then three places of y and two of x.
fn has_pairs(alloc: Global, space: &Space) -> Result<bool, AllocError> {
    let mut walk = space.walk(alloc, 0, space.size());
    finds(alloc, &mut walk, 28, &[false, true, true, true, true, true])
}

#[test]
fn known_places(rt: HostRuntime) {
    let alloc = rt.alloc();
    let two = holds_of(alloc, TWO_STORES, has_two);
    expect(&rt, "places of two stores", two);
    let three = holds_of(alloc, THREE_STORES, has_three);
    expect(&rt, "places of three stores", three);
    let read = holds_of(alloc, WRITES_AND_READS, has_read);
    expect(&rt, "places of writes, and reads", read);
    let pairs = holds_of(alloc, FOUR_PAIRS, has_pairs);
    expect(&rt, "places of writes of two locations", pairs);
}
