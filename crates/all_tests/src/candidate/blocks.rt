//! What is known of the executions of blocks, and passing over blocks.

use crate::candidate::texts::holds_of;
use crate::rows::{again, expect};
use candidates::{Block, Space, Walk};
use events::{Cut, EventId, Graph};
use std::alloc::{AllocError, Global};

/// Three later writes of x and one of y, and a read of each: 48 candidates for each choice of runs.
pub const WRITES_AND_READS: &str = "C B\n{}\n\
P0 (atomic_int* x, atomic_int* y) { atomic_store_explicit(x, 1, memory_order_relaxed); atomic_store_explicit(x, 2, memory_order_relaxed); int r0 = atomic_load_explicit(y, memory_order_relaxed); }\n\
P1 (atomic_int* x, atomic_int* y) { atomic_store_explicit(x, 3, memory_order_relaxed); atomic_store_explicit(y, 1, memory_order_relaxed); int r1 = atomic_load_explicit(x, memory_order_relaxed); }\n\
exists (0:r0=1)\n";

/// What is known of the executions of the blocks around one, from the widest on: the number behind the block, what the first reads read
/// from, and what is known of the orders. That each initial write is the first is known at each depth.
const AT_0: &str = "48 rf co i0 0.0 co i0 0.1 co i0 1.0 co i1 1.1
24 rf i1 co i0 0.0 co i0 0.1 co i0 1.0 co i1 1.1
6 rf i1 i0 co i0 0.0 co i0 0.1 co i0 1.0 co i1 1.1
3 rf i1 i0 co i0 0.1 1.0 co i0 0.0 co i1 1.1";

const AT_5: &str = "48 rf co i0 1.0 co i0 0.1 co i0 0.0 co i1 1.1
24 rf i1 co i0 1.0 co i0 0.1 co i0 0.0 co i1 1.1
6 rf i1 i0 co i0 1.0 co i0 0.1 co i0 0.0 co i1 1.1
6 rf i1 i0 co i0 1.0 0.1 co i0 0.0 co i1 1.1";

const AT_54: &str = "96 rf co i0 0.0 co i0 0.1 co i0 1.0 co i1 1.1
72 rf i1 co i0 0.0 co i0 0.1 co i0 1.0 co i1 1.1
60 rf i1 0.0 co i0 0.0 co i0 0.1 co i0 1.0 co i1 1.1
57 rf i1 0.0 co i0 0.1 1.0 co i0 0.0 co i1 1.1";

fn push_event(text: &mut String, event: EventId) -> Result<(), AllocError> {
    match event {
        EventId::Initial(location) => write!(text, " i{location}"),
        EventId::Own(thread, place) => write!(text, " {thread}.{place}"),
    }
}

/// Adds a head, and these events.
pub fn push_events(text: &mut String, head: &str, events: &[EventId]) -> Result<(), AllocError> {
    text.push_str(head)?;
    for event in events {
        push_event(text, *event)?;
    }
    Ok(())
}

/// Adds that the first event of an order stands before each of these.
fn push_first(text: &mut String, order: &[EventId], others: &[EventId]) -> Result<(), AllocError> {
    for other in others {
        push_events(text, " co", order.get(..1).unwrap_or(&[]))?;
        push_event(text, *other)?;
    }
    Ok(())
}

/// Adds an order without these events.
fn push_placed(text: &mut String, order: &[EventId], others: &[EventId]) -> Result<(), AllocError> {
    text.push_str(" co")?;
    for event in order {
        if !others.contains(event) {
            push_event(text, *event)?;
        }
    }
    Ok(())
}

/// Adds what is known of the order of a location.
fn push_known(
    text: &mut String,
    cut: Cut<'_>,
    location: usize,
    order: &[EventId],
) -> Result<(), AllocError> {
    if location > cut.locations {
        return push_events(text, " co", order);
    }
    if location < cut.locations {
        return push_first(text, order, order.get(1..).unwrap_or(&[]));
    }
    push_placed(text, order, cut.unplaced)?;
    push_first(text, order, cut.unplaced)
}

/// Adds what is known of an execution.
fn push_cut(text: &mut String, graph: &Graph, cut: Cut<'_>) -> Result<(), AllocError> {
    push_events(text, " rf", graph.rf().get(..cut.reads).unwrap_or(&[]))?;
    for (location, order) in graph.co().iter().enumerate() {
        push_known(text, cut, location, order.writes())?;
    }
    Ok(())
}

/// The end of a block around an execution, and what is known of the block's executions.
fn shown(alloc: Global, graph: &Graph, block: Block<'_>) -> Result<String, AllocError> {
    let mut text = format!(in alloc; "{}", block.end)?;
    push_cut(&mut text, graph, block.cut).and(Ok(text))
}

/// Whether there is a block of this depth around the execution found last, and it is this one.
fn has_block(alloc: Global, walk: &Walk, depth: usize, line: &str) -> Result<bool, AllocError> {
    match walk.block(depth) {
        Some(block) => Ok(
            walk.end_of(depth) == block.end && shown(alloc, walk.graph(), block)?.as_str() == line,
        ),
        None => Ok(false),
    }
}

/// Whether the blocks around the execution found last are these.
fn has_blocks(alloc: Global, walk: &Walk, blocks: &str) -> Result<bool, AllocError> {
    for (depth, line) in blocks.lines().enumerate() {
        if !has_block(alloc, walk, depth, line)? {
            return Ok(false);
        }
    }
    Ok(walk.depths() == blocks.lines().count() && walk.block(walk.depths()).is_none())
}

/// Whether a walk that passes the numbers before this one has no block there, and finds this execution next, with these blocks around it.
fn finds(
    alloc: Global,
    walk: &mut Walk,
    passed: u64,
    number: u64,
    blocks: &str,
) -> Result<bool, AllocError> {
    walk.pass(passed);
    if walk.block(0).is_some() || again!(_, walk.next(alloc))? != Some(number) {
        return Ok(false);
    }
    has_blocks(alloc, walk, blocks)
}

/// Whether the blocks around some executions of the space are as expected.
fn has_all_blocks(alloc: Global, space: &Space) -> Result<bool, AllocError> {
    let mut walk = space.walk(alloc, 0, space.size());
    if walk.depths() != 0 {
        return Ok(false);
    }
    Ok(
        finds(alloc, &mut walk, 0, 0, AT_0)?
            && finds(alloc, &mut walk, 5, 5, AT_5)?
            && finds(alloc, &mut walk, 24, 54, AT_54)?,
    )
}

/// Whether a walk stays within its own numbers, and doesn't go back.
fn stays_within(alloc: Global, space: &Space) -> Result<bool, AllocError> {
    if space.size() < 4 {
        return Ok(false);
    }
    let mut walk = space.walk(alloc, 0, 4);
    walk.pass(2);
    walk.pass(1);
    if again!(_, walk.next(alloc))? != Some(2) {
        return Ok(false);
    }
    walk.pass(space.size());
    Ok(again!(_, walk.next(alloc))?.is_none())
}

/// Whether a walk that was paused goes on at other numbers.
fn goes_on(alloc: Global, space: &Space) -> Result<bool, AllocError> {
    if space.size() < 6 {
        return Ok(false);
    }
    let walk = space.walk(alloc, 0, 6);
    let mut behind = space.resume(walk.pause(), 6, space.size());
    finds(alloc, &mut behind, 24, 54, AT_54)
}

#[test]
fn blocks(rt: HostRuntime) {
    let alloc = rt.alloc();
    let have_blocks = holds_of(alloc, WRITES_AND_READS, has_all_blocks);
    expect(&rt, "what is known of blocks", have_blocks);
    let stays = holds_of(alloc, WRITES_AND_READS, stays_within);
    expect(&rt, "a walk within its numbers", stays);
    let goes_on = holds_of(alloc, WRITES_AND_READS, goes_on);
    expect(&rt, "a walk that was paused", goes_on);
}
