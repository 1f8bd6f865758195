//! Orders that are open over some numbers: executions that differ in nothing else.

ghost use Rattle.std.specs.Prelude.{◌≡◌, ◌≤◌, ◌<◌, ◌%◌, ℕ, List, IfSome, MatchOption};
ghost use Rattle.events.specs.Executions.{ThreadRun};
ghost use Rattle.candidates.specs.Alike.{IsOpen, Opens};
ghost use Rattle.candidates.specs.Blocks.{IsAllRead, IsDepth, open_among};
ghost use Rattle.candidates.specs.Readings.{IsPage};

use crate::depths::{Depth, Known, Unplaced};
use crate::page::Page;
use events::Cut;

/// Which writes have each place that there is in the orders of so many numbers, one behind another.
#[derive(Clone, Copy)]
pub struct OpenOrders {
    pub(crate) unplaced: Unplaced,
    pub(crate) size: u64,
}

impl OpenOrders {
    /// How many numbers they are.
    pub fn size(self) -> u64
        ensures { result ≡ self.size }
    {
        self.size
    }

    /// How many of the first later writes of a location, which are so many, have each place.
    pub fn among(self, location: usize, writes: usize) -> usize
        ensures { result ≡ open_among self.unplaced.locations self.unplaced.writes location writes }
    {
        self.unplaced.among(location, writes)
    }
}

/// Executions one behind another that differ in their orders alone, from the one on that a walk found last: what is open of the orders, and
/// the writes that are open in that execution, as those that have no place in a cut.
#[derive(Clone, Copy)]
pub struct Open<'a> {
    pub orders: OpenOrders,
    pub cut: Cut<'a>,
}

/// What is open of the orders, where all of them are.
fn all_orders(page: &Page, locations: usize) -> OpenOrders
    requires { IsPage locations page.now }
    ensures open { IsOpen locations page.now.runs.items result }
    ensures unplaced { result.unplaced ≡ record { locations = locations; writes = 0 } }
    ensures size { result.size ≡ page.now.orders }
{
    OpenOrders {
        unplaced: Unplaced {
            locations,
            writes: 0,
        },
        size: page.orders,
    }
}

/// What is open of the orders in the blocks of a depth, if nothing else is.
fn orders_alone(page: &Page, locations: usize, depth: &Depth) -> Option<OpenOrders>
    requires page { IsPage locations page.now }
    requires depth { IsDepth locations page.now.runs.items depth.now }
    ensures open { IfSome result (IsOpen locations page.now.runs.items) }
    ensures known { IfSome result (Opens locations page.now.runs.items depth.now) }
    ensures none { MatchOption result (¬ IsAllRead page.now.runs.items depth.now.known) (λ _. Unit {0}) }
{
    match depth.known {
        Known::Orders(unplaced) => Some(OpenOrders {
            unplaced,
            size: depth.size,
        }),
        Known::Sources(count) => {
            if count != page.reads.len() {
                return None;
            }
            Some(all_orders(page, locations))
        }
    }
}

/// What is open of the orders from a place of a stretch on, in blocks of a depth, if nothing else is, their number isn't too large and the
/// place is the first of one.
pub(crate) fn open_at(
    page: &Page,
    locations: usize,
    depth: &Depth,
    place: u64,
    most: u64,
) -> Option<OpenOrders>
    requires page { IsPage locations page.now }
    requires depth { IsDepth locations page.now.runs.items depth.now }
    ensures open { IfSome result (IsOpen locations page.now.runs.items) }
    ensures known { IfSome result (Opens locations page.now.runs.items depth.now) }
    ensures none { MatchOption result (IsAllRead page.now.runs.items depth.now.known → depth.now.size ≤ most → ¬ (place % depth.now.size ≡ 0)) (λ _. Unit {0}) }
    ensures first { IfSome result (λ o. place % o.size ≡ 0) }
    ensures most { IfSome result (λ o. o.size ≤ most) }
{
    let open = orders_alone(page, locations, depth)?;
    if open.size > most || place % open.size != 0 {
        return None;
    }
    Some(open)
}

/// What is open of the orders from a place of a stretch on, for at most so many numbers.
pub(crate) fn open_orders(page: &Page, locations: usize, place: u64, most: u64) -> OpenOrders
    requires page { IsPage locations page.now }
    requires some { 1 ≤ most }
    ensures open { IsOpen locations page.now.runs.items result }
    ensures first { place % result.size ≡ 0 }
    ensures most { result.size ≤ most }
{
    if page.orders <= most && place % page.orders == 0 {
        return all_orders(page, locations);
    }
    for depth in &page.depths {
        if let Some(open) = open_at(page, locations, depth, place, most) {
            return open;
        }
    }
    OpenOrders {
        unplaced: Unplaced {
            locations: 0,
            writes: 0,
        },
        size: 1,
    }
}
