//! The depths of the blocks of some runs: what is known of a block's executions, and how many numbers it has.

ghost use Rattle.std.specs.Prelude.{◌≡◌, ◌<◌, ◌+◌, ◌-◌, [], ◌∷◌, ◌++◌, length, filter, nat_lt, if◌then◌else◌, All, IfOk, OnOk};
ghost use Rattle.candidates.specs.Blocks.{IsDepth, open_among, ways_of_orders};
ghost use Rattle.candidates.specs.Depths.{before_reads, by_places, by_locations, depths_of, has_places, is_open, known_of};
ghost use Rattle.candidates.specs.Executions.{later_writes, upto};
ghost use Rattle.candidates.specs.declared.depths.Known.TheVariants.{Sources};
ghost use Rattle.candidates.specs.Readings.{IsPage};

use crate::page::Page;
use events::{Event, EventId};
use std::alloc::AllocError;

/// Which writes have no place in the orders that are known: all of the first `locations`, and the first `writes` later
/// ones of the location behind them.
#[derive(Clone, Copy)]
pub(crate) struct Unplaced {
    pub(crate) locations: usize,
    pub(crate) writes: usize,
}

impl Unplaced {
    /// How many of the later writes of a location, which are so many, have no place.
    pub(crate) fn among(self, location: usize, writes: usize) -> usize
        ensures { result ≡ open_among self.locations self.writes location writes }
    {
        if location < self.locations {
            return writes;
        }
        if location == self.locations {
            return self.writes;
        }
        0
    }
}

/// What is known of the executions of a block.
#[derive(Clone, Copy)]
pub(crate) enum Known {
    /// What so many of the first reads read from.
    Sources(usize),
    /// What all reads read from, and the orders without the writes that have no place.
    Orders(Unplaced),
}

impl Known {
    /// Whether places of writes are known.
    pub(crate) fn has_places(self) -> bool
        ensures { result ≡ has_places self }
    {
        match self {
            Known::Sources(_) => false,
            Known::Orders(_) => true,
        }
    }
}

/// Blocks of one size.
#[derive(Clone, Copy)]
pub(crate) struct Depth {
    pub(crate) size: u64,
    pub(crate) known: Known,
}

/// Adds a depth, if its blocks have several numbers.
fn push_depth(depths: &mut Vec<Depth>, depth: Depth) -> Result<(), AllocError>
    ensures { OnOk result (depths.new.items ≡ (if nat_lt 1 depth.size then depths.old.items ++ depth ∷ [] else depths.old.items)) }
{
    if depth.size > 1 {
        depths.push(depth)?;
    }
    Ok(())
}

/// Adds a depth at which the sources of the reads before this one are known, if the read has several that it may read from.
fn push_read(
    depths: &mut Vec<Depth>,
    place: usize,
    writes: &[EventId],
    size: u64,
) -> Result<(), AllocError>
    ensures { OnOk result (depths.new.items ≡ (if nat_lt 0 (length writes.now) then depths.old.items ++ record { size = size; known = Sources place } ∷ [] else depths.old.items)) }
{
    if writes.len() > 0 {
        let known = Known::Sources(place);
        depths.push(Depth { size, known })?;
    }
    Ok(())
}

/// Adds the depths at which what one read after another reads from gets known.
fn push_reading(
    depths: &mut Vec<Depth>,
    page: &Page,
    reads: &[Event],
    locations: usize,
) -> Result<(), AllocError>
    requires page { IsPage locations page.now }
    requires reads { reads.now ≡ page.now.reads.items }
    requires depths { All (IsDepth locations page.now.runs.items) depths.old.items }
    ensures depths { OnOk result (All (IsDepth locations page.now.runs.items) depths.new.items) }
    ensures known { OnOk result (known_of depths.new.items ≡ known_of depths.old.items ++ before_reads page.now.runs.items 0 reads.now) }
{
    let mut size = page.ways * page.orders;
    for (place, read) in reads.iter().enumerate() {
        let writes = page.writes_to(read.loc);
        push_read(depths, place, writes, size)?;
        size /= writes.len() as u64 + 1;
    }
    Ok(())
}

/// Adds the depths at which one write of a location after another gets its place, from the last to the first, where this
/// is the number of orders of the writes up to the location's. Gives that of the writes before the location's.
fn push_order(
    depths: &mut Vec<Depth>,
    page: &Page,
    locations: usize,
    location: usize,
    orders: u64,
) -> Result<u64, AllocError>
    requires page { IsPage locations page.now }
    requires location { location < locations }
    requires orders { orders ≡ ways_of_orders page.now.runs.items (location + 1) 0 (upto locations) }
    requires depths { All (IsDepth locations page.now.runs.items) depths.old.items }
    ensures orders { IfOk result (λ below. below ≡ ways_of_orders page.now.runs.items location 0 (upto locations)) }
    ensures depths { OnOk result (All (IsDepth locations page.now.runs.items) depths.new.items) }
    ensures known { OnOk result (known_of depths.new.items ≡ known_of depths.old.items ++ filter (is_open locations page.now.runs.items) (by_places location (length (later_writes page.now.runs.items location) - 1))) }
{
    let writes = page.writes_to(location).len();
    let mut size = orders;
    // The last write is placed already: where it stands alone, no order is left to choose.
    let mut unplaced = writes.saturating_sub(1);
    while unplaced > 0 {
        unplaced -= 1;
        size /= (writes - unplaced) as u64;
        let known = Known::Orders(Unplaced {
            locations: location,
            writes: unplaced,
        });
        push_depth(depths, Depth { size, known })?;
    }
    Ok(size)
}

/// Adds the depths at which the orders get known, from the last location to the first.
fn push_orders(depths: &mut Vec<Depth>, page: &Page, locations: usize) -> Result<(), AllocError>
    requires page { IsPage locations page.now }
    requires depths { All (IsDepth locations page.now.runs.items) depths.old.items }
    ensures depths { OnOk result (All (IsDepth locations page.now.runs.items) depths.new.items) }
    ensures known { OnOk result (known_of depths.new.items ≡ known_of depths.old.items ++ filter (is_open locations page.now.runs.items) (by_locations page.now.runs.items locations)) }
{
    let mut orders = page.orders;
    let mut location = locations;
    while location > 0 {
        location -= 1;
        orders = push_order(depths, page, locations, location, orders)?;
    }
    Ok(())
}

/// The depths of the page's blocks, the coarsest first, each with smaller blocks than the one before, in the room of others.
#[inline(never)]
pub(crate) fn list_depths(
    page: &Page,
    locations: usize,
    room: Vec<Depth>,
) -> Result<Vec<Depth>, AllocError>
    requires { IsPage locations page.now }
    ensures depths { IfOk result (λ v. All (IsDepth locations page.now.runs.items) v.items) }
    ensures are { IfOk result (λ v. v.items ≡ depths_of locations page.now.runs.items) }
{
    let mut depths = room;
    depths.clear();
    push_reading(&mut depths, page, &page.reads, locations)?;
    let known = Known::Sources(page.reads.len());
    push_depth(
        &mut depths,
        Depth {
            size: page.orders,
            known,
        },
    )?;
    push_orders(&mut depths, page, locations)?;
    Ok(depths)
}
