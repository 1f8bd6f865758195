//! Which writes are open in the blocks that begin with an execution.

use crate::candidate::blocks::{WRITES_AND_READS, push_events};
use crate::candidate::texts::holds_of;
use crate::rows::{again, expect};
use candidates::{Open, Space, Walk};
use events::{Cut, EventId, Graph};
use std::alloc::{AllocError, Global};

/// Four threads of a store to x and one to y each: 4! orders of y, of each 4! of x, which change faster.
pub const FOUR_PAIRS: &str = "C P\n{}\n\
P0 (atomic_int* x, atomic_int* y) { atomic_store_explicit(x, 1, memory_order_relaxed); atomic_store_explicit(y, 1, memory_order_relaxed); }\n\
P1 (atomic_int* x, atomic_int* y) { atomic_store_explicit(x, 2, memory_order_relaxed); atomic_store_explicit(y, 2, memory_order_relaxed); }\n\
P2 (atomic_int* x, atomic_int* y) { atomic_store_explicit(x, 3, memory_order_relaxed); atomic_store_explicit(y, 3, memory_order_relaxed); }\n\
P3 (atomic_int* x, atomic_int* y) { atomic_store_explicit(x, 4, memory_order_relaxed); atomic_store_explicit(y, 4, memory_order_relaxed); }\n\
exists (x=1)\n";

/// The blocks that begin with an execution, depth by depth and at one depth more than there are: how many numbers a block has, and of each
/// location how many writes are open, and which. Where what reads read from is open, too, or no block begins, there is none.
const NONE: &str = "none
none
none
none
none";

const ALL_READ: &str = "none
none
6 | 3: 0.0 0.1 1.0 | 1: 1.1
3 | 1: 0.0 | 0:
none";

/// In the middle of a block of six, or where six numbers are more than the walk has.
const ONE_WRITE: &str = "none
none
none
3 | 1: 0.0 | 0:
none";

/// Without a read all is read at each depth.
const PAIRS_AT_0: &str = "576 | 4: 0.0 1.0 2.0 3.0 | 4: 0.1 1.1 2.1 3.1
288 | 4: 0.0 1.0 2.0 3.0 | 2: 0.1 1.1
96 | 4: 0.0 1.0 2.0 3.0 | 1: 0.1
24 | 4: 0.0 1.0 2.0 3.0 | 0:
12 | 2: 0.0 1.0 | 0:
4 | 1: 0.0 | 0:
none";

const PAIRS_AT_24: &str = "none
none
none
24 | 4: 0.0 1.0 2.0 3.0 | 0:
12 | 2: 0.0 1.0 | 0:
4 | 1: 0.0 | 0:
none";

const PAIRS_AT_28: &str = "none
none
none
none
none
4 | 1: 0.0 | 0:
none";

/// The writes of a location that have no place in a cut.
fn open_in<'a>(cut: Cut<'a>, location: usize, order: &'a [EventId]) -> &'a [EventId] {
    if location < cut.locations {
        return order.get(1..).unwrap_or(&[]);
    }
    if location == cut.locations {
        return cut.unplaced;
    }
    &[]
}

/// Adds the number of executions of a block, and what is open in each order.
fn push_open(text: &mut String, graph: &Graph, open: Open<'_>) -> Result<(), AllocError> {
    write!(text, "{}", open.orders.size())?;
    for (location, order) in graph.co().iter().enumerate() {
        let later = order.writes().len().saturating_sub(1);
        write!(text, " | {}", open.orders.among(location, later))?;
        push_events(text, ":", open_in(open.cut, location, order.writes()))?;
    }
    Ok(())
}

/// The block of this depth that begins with the execution found last, as a text.
fn shown(alloc: Global, walk: &Walk, depth: usize) -> Result<String, AllocError> {
    let mut text = String::new(alloc);
    match walk.open_block(depth) {
        Some(open) => push_open(&mut text, walk.graph(), open)?,
        None => text.push_str("none")?,
    }
    Ok(text)
}

/// Whether the blocks that begin with the execution found last are these.
fn begin(alloc: Global, walk: &Walk, blocks: &str) -> Result<bool, AllocError> {
    for (depth, line) in blocks.lines().enumerate() {
        if again!(_, shown(alloc, walk, depth))?.as_str() != line {
            return Ok(false);
        }
    }
    Ok(blocks.lines().count() == walk.depths().saturating_add(1))
}

/// Whether a walk that passes the numbers before this one finds it, with these blocks.
fn finds(alloc: Global, walk: &mut Walk, number: u64, blocks: &str) -> Result<bool, AllocError> {
    walk.pass(number);
    Ok(again!(_, walk.next(alloc))? == Some(number) && begin(alloc, walk, blocks)?)
}

/// Whether the blocks are those of three writes of x, one of y and a read of each. Those from 54 on read y's initial write and the
/// first of x.
fn has_read(alloc: Global, space: &Space) -> Result<bool, AllocError> {
    let mut walk = space.walk(alloc, 0, space.size());
    Ok(
        walk.open_block(0).is_none()
            && finds(alloc, &mut walk, 0, ALL_READ)?
            && finds(alloc, &mut walk, 3, ONE_WRITE)?
            && finds(alloc, &mut walk, 5, NONE)?
            && finds(alloc, &mut walk, 54, ALL_READ)?,
    )
}

/// Whether the blocks are those of four threads of two stores each.
fn has_pairs(alloc: Global, space: &Space) -> Result<bool, AllocError> {
    let mut walk = space.walk(alloc, 0, space.size());
    Ok(
        finds(alloc, &mut walk, 0, PAIRS_AT_0)?
            && finds(alloc, &mut walk, 24, PAIRS_AT_24)?
            && finds(alloc, &mut walk, 28, PAIRS_AT_28)?,
    )
}

/// Whether no block ends behind a walk's own numbers, and none begins with an execution that the walk has passed.
fn ends_within(alloc: Global, space: &Space) -> Result<bool, AllocError> {
    if space.size() < 5 {
        return Ok(false);
    }
    let mut walk = space.walk(alloc, 0, 5);
    if !finds(alloc, &mut walk, 0, ONE_WRITE)? {
        return Ok(false);
    }
    walk.pass(2);
    begin(alloc, &walk, NONE)
}

#[test]
fn open_blocks(rt: HostRuntime) {
    let alloc = rt.alloc();
    let read = holds_of(alloc, WRITES_AND_READS, has_read);
    expect(&rt, "open writes, and reads", read);
    let pairs = holds_of(alloc, FOUR_PAIRS, has_pairs);
    expect(&rt, "open writes of two locations", pairs);
    let ends = holds_of(alloc, WRITES_AND_READS, ends_within);
    expect(&rt, "open writes within a walk's numbers", ends);
}
