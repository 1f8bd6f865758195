//! The writes that stand last in orders that are counted together.

ghost use Rattle.std.specs.Prelude.{◌≡◌, ◌<◌, ◌≤◌, ◌^◌, ◌*◌, ◌-◌, length, map, IfOk, OnOk, MatchOption};
ghost use Rattle.listings.specs.Lists.{product_by};
ghost use Rattle.listings.specs.Numbered.{digits};
ghost use Rattle.candidates.specs.Blocks.{open_among, placings};
ghost use Rattle.events.specs.declared.event.EventId.TheVariants.{Initial};
ghost use Rattle.slices.specs.Ways.{AreShares, count_of_ways, is_seen, openable, shown_way, shown_ways, size_of_ways, tail, way, weight_by, weight_of_way};

use crate::slot::{Slot, is_seen};
use candidates::OpenOrders;
use events::{EventId, Graph};
use std::alloc::{AllocError, Global};
use std::marker::Model;

/// A location's later writes in an order, of which the first ones have each place in the orders that are counted together. Each of these stands
/// last in some of those, and in the others the last of them all. Where the location isn't seen, it doesn't matter which is the last.
#[derive(Drop)]
pub(crate) struct Ways<'g> {
    initial: EventId,
    writes: &'g [EventId],
    opened: usize,
    seen: bool,
    shares: Shares,
}

impl<'g> Model for Ways<'g> {
    ghost use Rattle.std.specs.Prelude.{◌≤◌, ◌-◌, length};
    ghost use Rattle.slices.specs.Ways.{AreShares, WaysValue};

    ghost Value = { WaysValue };

    ghost view = { λ w. record { initial = w.initial; writes = w.writes.now; opened = w.opened; seen = w.seen } };

    ghost invariant = { λ w. (w.opened ≤ length w.writes.now - 1) × AreShares (length w.writes.now) w.opened w.seen w.shares };
}

/// In how many ways the first `opened` of so many writes are placed among the others.
fn placings(writes: usize, opened: usize) -> u64
    requires few { placings writes opened ≤ 2 ^ 32 }
    requires within { opened ≤ writes }
    ensures { result ≡ placings writes opened }
{
    let mut count = 1;
    for placed in 0..opened {
        count *= (writes - placed) as u64;
    }
    count
}

/// In how many of the orders each opened write stands last, and in how many the last of the others. Where the location isn't seen, both count all orders.
#[derive(Clone, Copy)]
struct Shares {
    opened: u64,
    other: u64,
}

impl Shares {
    /// Those of so many writes, of which the first `opened` have each place.
    fn of(writes: usize, opened: usize, seen: bool) -> Self
        requires few { placings writes opened ≤ 2 ^ 32 }
        requires within { opened ≤ writes - 1 }
        ensures { AreShares writes opened seen result }
    {
        if !seen {
            let all = placings(writes, opened);
            return Shares {
                opened: all,
                other: all,
            };
        }
        if opened == 0 {
            return Shares {
                opened: 1,
                other: 1,
            };
        }
        let share = placings(writes - 1, opened - 1);
        Shares {
            opened: share,
            other: share * (writes - opened) as u64,
        }
    }
}

/// How many of so many writes are opened, where so many are free: of one that stands alone behind all others, none is.
fn openable(writes: usize, free: usize) -> usize
    ensures is { result ≡ openable writes free }
    ensures within { result ≤ writes - 1 }
{
    if free < writes {
        return free;
    }
    writes.saturating_sub(1)
}

/// The writes of an order behind the first.
fn tail(order: &[EventId]) -> &[EventId]
    ensures { result.now ≡ tail order.now }
{
    let start = order.len().min(1);
    &order[start..]
}

impl<'g> Ways<'g> {
    /// The ways of a location's order, where these orders are open.
    fn of(location: usize, order: &'g [EventId], seen: bool, range: OpenOrders) -> Self
        requires { size_of_ways (shown_way Initial (λ _. seen) range.unplaced.locations range.unplaced.writes location order.now) ≤ 2 ^ 32 }
        ensures { result ≡ shown_way Initial (λ _. seen) range.unplaced.locations range.unplaced.writes location order.entry.now }
    {
        let writes = tail(order);
        let free = range.among(location, writes.len());
        let opened = openable(writes.len(), free);
        Ways {
            initial: EventId::Initial(location),
            writes,
            opened,
            seen,
            shares: Shares::of(writes.len(), opened, seen),
        }
    }

    /// How many writes may stand last.
    fn count(&self) -> u64
        ensures { result ≡ count_of_ways self.now }
    {
        if !self.seen {
            return 1;
        }
        self.opened as u64 + 1
    }

    /// In how many of the orders the write with this place among those that may stand last does.
    fn weight(&self, place: u64) -> u64
        ensures weight { result ≡ weight_of_way self.now place }
        ensures most { result ≤ size_of_ways self.now }
        ensures some { 1 ≤ result }
    {
        if place < self.opened as u64 {
            self.shares.opened
        } else {
            self.shares.other
        }
    }

    /// The write with this place among those that may stand last.
    fn last(&self, place: u64) -> EventId
        ensures { result ≡ way self.now place }
    {
        if !self.seen {
            return self.initial;
        }
        if place < self.opened as u64 {
            return self.writes[place as usize];
        }
        self.writes.last().copied().unwrap_or(self.initial)
    }
}

/// The writes that stand last by this number, one for each location, and in how many of the orders they do; nothing behind the last number.
pub(crate) fn choose<'g>(
    ways: &[Ways<'g>],
    number: u64,
    lasts: &mut Vec<EventId>,
) -> Result<Option<u64>, AllocError>
    requires { product_by size_of_ways ways.now ≤ 2 ^ 32 }
    ensures weight { IfOk result (λ w. MatchOption w (product_by count_of_ways ways.now ≤ number) (λ k. (number < product_by count_of_ways ways.now) × (k ≡ weight_by count_of_ways weight_of_way ways.now number))) }
    ensures lasts { OnOk result (lasts.new.items ≡ digits count_of_ways way ways.now number) }
{
    lasts.clear();
    let mut left = number;
    let mut weight = 1;
    for way in ways {
        let count = way.count();
        let place = left % count;
        left /= count;
        weight *= way.weight(place);
        lasts.push(way.last(place))?;
    }
    if left > 0 {
        return Ok(None);
    }
    Ok(Some(weight))
}

/// The ways of each location's order in an execution, where these orders are open and these places are observed.
pub(crate) fn ways_of<'g>(
    alloc: Global,
    slots: &[Slot],
    graph: &'g Graph,
    range: OpenOrders,
) -> Result<Vec<Ways<'g>>, AllocError>
    requires { product_by size_of_ways (shown_ways Initial (is_seen slots.now) range.unplaced.locations range.unplaced.writes 0 graph.now.co) ≤ 2 ^ 32 }
    ensures { IfOk result (λ v. v.items ≡ shown_ways Initial (is_seen slots.now) range.unplaced.locations range.unplaced.writes 0 graph.entry.now.co) }
{
    let orders = graph.co();
    let mut ways = Vec::with_capacity(alloc, orders.len())?;
    for (location, order) in orders.iter().enumerate() {
        let seen = is_seen(slots, location);
        ways.push(Ways::of(location, order.writes(), seen, range))?;
    }
    Ok(ways)
}
