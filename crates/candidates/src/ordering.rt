//! The orders of the writes to each location, by their numbers.

ghost use Rattle.std.specs.Prelude.{◌≡◌, ◌+◌, ◌<◌, ◌≤◌, [], ◌∷◌, ◌++◌, List, length, take, IfOk, OnOk};
ghost use Rattle.std.specs.List.{insert};
ghost use Rattle.events.specs.declared.event.EventId.{EventId};
ghost use Rattle.events.specs.declared.event.EventId.TheVariants.{Initial};
ghost use Rattle.listings.specs.Numbered.{arrange, digits};
ghost use Rattle.candidates.specs.Executions.{upto};
ghost use Rattle.candidates.specs.Candidates.{count_orders, order_at};
ghost use Rattle.candidates.specs.Readings.{IsPage};

use crate::page::Page;
use events::{Coherence, EventId};
use std::alloc::{AllocError, Global};
use std::mem::replace;

/// Moves the write at a place of an order to a later place.
fn move_on(order: &mut [EventId], from: usize, to: usize)
    requires order { from ≤ to }
    requires within { to < length order.old }
    ensures len { length order.new ≡ length order.old }
    ensures moved { (ws : List EventId) (w : EventId) → order.old ≡ insert ws from w → order.new ≡ insert ws to w }
{
    let mut place = from;
    while place < to {
        order.swap(place, place + 1);
        place += 1;
    }
}

/// Moves the write at a place of an order to an earlier place.
fn move_back(order: &mut [EventId], from: usize, to: usize)
    requires order { to ≤ from }
    requires within { from < length order.old }
    ensures len { length order.new ≡ length order.old }
    ensures moved { (ws : List EventId) (w : EventId) → order.old ≡ insert ws from w → order.new ≡ insert ws to w }
{
    let mut place = from;
    while to < place {
        order.swap(place - 1, place);
        place -= 1;
    }
}

/// Moves the write at a place of an order to another place.
fn move_write(order: &mut [EventId], from: usize, to: usize)
    requires from { from < length order.old }
    requires to { to < length order.old }
    ensures len { length order.new ≡ length order.old }
    ensures moved { (ws : List EventId) (w : EventId) → order.old ≡ insert ws from w → order.new ≡ insert ws to w }
{
    if from <= to {
        move_on(order, from, to);
    } else {
        move_back(order, from, to);
    }
}

/// Makes the order with one number of some writes to that with another.
fn turn(order: &mut [EventId], from: u64, to: u64)
    ensures len { length order.new ≡ length order.old }
    ensures turned { (ws : List EventId) → order.old ≡ arrange ws from → order.new ≡ arrange ws to }
{
    let count = order.len() as u64;
    if count == 0 {
        return;
    }
    let place = (from % count) as usize;
    let next = (to % count) as usize;
    if from / count == to / count {
        move_write(order, place, next);
        return;
    }
    move_back(order, place, 0);
    turn(&mut order[1..], from / count, to / count);
    move_on(order, 0, next);
}

/// Makes the order with one number of the later writes to a location to that with another.
fn turn_order(alloc: Global, order: &mut Coherence, from: u64, to: u64)
    requires { 1 ≤ length order.old }
    ensures { (w : EventId) (ws : List EventId) → order.old ≡ w ∷ arrange ws from → order.new ≡ w ∷ arrange ws to }
{
    let mut writes = replace(order, Coherence::new(Vec::new(alloc))).into_writes();
    turn(&mut writes[1..], from, to);
    *order = Coherence::new(writes);
}

/// Makes the orders with one number, of each location, to those with another. Where the rest of both numbers is the same, the
/// orders stay as they are.
fn turn_each(alloc: Global, page: &Page, co: &mut [Coherence], locations: usize, from: u64, to: u64)
    requires page { IsPage locations page.now }
    requires co { co.old ≡ digits (count_orders page.now.runs.items) (order_at page.now.runs.items) (upto locations) from }
    ensures len { length co.new ≡ length co.old }
    ensures turned { co.new ≡ digits (count_orders page.now.runs.items) (order_at page.now.runs.items) (upto locations) to }
{
    let mut old = from;
    let mut new = to;
    for location in 0..locations {
        if old == new {
            return;
        }
        let count = page.orders_of(location);
        turn_order(alloc, &mut co[location], old % count, new % count);
        old /= count;
        new /= count;
    }
}

/// Makes the orders with one number, of each location, to those with another.
pub(crate) fn turn_orders(
    alloc: Global,
    page: &Page,
    mut co: Vec<Coherence>,
    locations: usize,
    from: u64,
    to: u64,
) -> Vec<Coherence>
    requires page { IsPage locations page.now }
    requires co { co.items ≡ digits (count_orders page.now.runs.items) (order_at page.now.runs.items) (upto locations) from }
    ensures { result.items ≡ digits (count_orders page.now.runs.items) (order_at page.now.runs.items) (upto locations) to }
{
    turn_each(alloc, page, &mut co, locations, from, to);
    co
}

/// Writes the order with this number of the writes to a location, of which these are the later ones, into an empty list.
pub(crate) fn order_in(
    alloc: Global,
    list: Vec<EventId>,
    location: usize,
    later: &[EventId],
    number: u64,
) -> Result<Coherence, AllocError>
    requires { list.items ≡ [] }
    ensures { IfOk result (λ o. o ≡ Initial location ∷ arrange later.now number) }
{
    let mut order = list;
    order.push(EventId::Initial(location))?;
    order.extend_from_slice(later)?;
    let mut order = Coherence::new(order);
    if number == 0 {
        return Ok(order);
    }
    turn_order(alloc, &mut order, 0, number);
    Ok(order)
}

/// The order with this number of the writes to a location, of which these are the later ones.
fn order_of(
    alloc: Global,
    location: usize,
    later: &[EventId],
    number: u64,
) -> Result<Coherence, AllocError>
    ensures { IfOk result (λ o. o ≡ Initial location ∷ arrange later.now number) }
{
    let list = Vec::with_capacity(alloc, later.len() + 1)?;
    order_in(alloc, list, location, later, number)
}

/// Puts the order with this number of the writes to a location, of which these are the later ones, at its place of a list, in the
/// room of the order that stands there. Those before it stay as they are.
fn put_order(
    alloc: Global,
    co: &mut Vec<Coherence>,
    location: usize,
    later: &[EventId],
    number: u64,
) -> Result<(), AllocError>
    requires { location ≤ length co.old.items }
    ensures { OnOk result ((take (location + 1) co.new.items ≡ take location co.old.items ++ (Initial location ∷ arrange later.now number) ∷ []) × (location < length co.new.items)) }
{
    if location >= co.len() {
        co.push(order_of(alloc, location, later, number)?)?;
        return Ok(());
    }
    let mut list = replace(&mut co[location], Coherence::new(Vec::new(alloc))).into_writes();
    list.clear();
    co[location] = order_in(alloc, list, location, later, number)?;
    Ok(())
}

/// The orders with this number, for each location, in the room of others.
pub(crate) fn coherence(
    alloc: Global,
    page: &Page,
    locations: usize,
    number: u64,
    room: Vec<Coherence>,
) -> Result<Vec<Coherence>, AllocError>
    requires page { IsPage locations page.now }
    ensures { IfOk result (λ v. v.items ≡ digits (count_orders page.now.runs.items) (order_at page.now.runs.items) (upto locations) number) }
{
    let mut co = room;
    let mut rest = number;
    for location in 0..locations {
        let later = page.writes_to(location);
        let count = page.orders_of(location);
        put_order(alloc, &mut co, location, later, rest % count)?;
        rest /= count;
    }
    co.truncate(locations);
    Ok(co)
}
