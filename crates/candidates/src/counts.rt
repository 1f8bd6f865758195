//! How often runs read and write each location, and how many candidates have runs that do so.

ghost use Rattle.std.specs.Prelude.{◌≡◌, ◌+◌, ◌*◌, ◌^◌, ◌<◌, ◌≤◌, [], length, count_by, IfOk, true};
ghost use Rattle.listings.specs.Lists.{factorial, product_by};
ghost use Rattle.events.specs.Executions.{writes_to};
ghost use Rattle.candidates.specs.Candidates.{IsCapped};
ghost use Rattle.candidates.specs.Bounds.{reads_from};
ghost use Rattle.candidates.specs.Groups.{tally_of, sum_tally, ways_of, IsSmall};

use crate::capped::{capped_factorial, capped_power, capped_product};
use crate::fault::MOST_CANDIDATES;
use events::Event;
use std::alloc::{AllocError, Global};
use std::marker::Model;

/// How often a location is read and written.
#[derive(Clone, Copy)]
pub(crate) struct Counts {
    reads: usize,
    writes: usize,
}

/// How often the events read and write a location.
fn count(events: &[Event], location: usize) -> Counts
    ensures reads { result.reads ≡ count_by (reads_from location) events.now }
    ensures writes { result.writes ≡ count_by (writes_to location) events.now }
{
    let mut reads: usize = 0;
    let mut writes: usize = 0;
    for event in events {
        if event.is_read() && event.loc == location {
            reads += 1;
        }
        if event.writes_to(location) {
            writes += 1;
        }
    }
    Counts { reads, writes }
}

/// How many ways there are to read from a location that is read and written this often, times how many
/// orders of the writes, if that is at most the limit.
fn ways(counts: Counts) -> Option<u64>
    requires { counts.writes ≤ 512 }
    ensures { IsCapped MOST_CANDIDATES ((counts.writes + 1) ^ counts.reads * factorial counts.writes) result }
{
    let ways = capped_power(counts.writes as u64 + 1, counts.reads)?;
    let orders = capped_factorial(counts.writes)?;
    capped_product(ways, orders)
}

/// How often each location is read and written.
#[derive(Drop)]
pub(crate) struct AccessTally {
    counts: Vec<Counts>,
}

impl Model for AccessTally {
    ghost use Rattle.std.specs.Prelude.{List};
    ghost use Rattle.candidates.specs.declared.counts.Counts.{Counts};

    ghost Value = { List Counts };

    ghost view = { λ t. t.counts.items };
}

/// How many locations both have counts of.
fn shorter(counts: &[Counts], more: &[Counts]) -> usize
    ensures own { result ≤ length counts.now }
    ensures other { result ≤ length more.now }
    ensures rest { result < length counts.now → length more.now ≤ result }
{
    if counts.len() < more.len() {
        return counts.len();
    }
    more.len()
}

/// The sums of the counts of each location.
fn add(alloc: Global, counts: &[Counts], more: &[Counts]) -> Result<Vec<Counts>, AllocError>
    requires small { IsSmall (sum_tally counts.now more.now) }
    ensures { IfOk result (λ v. v.items ≡ sum_tally counts.now more.now) }
{
    let locations = shorter(counts, more);
    let mut sums = Vec::with_capacity(alloc, locations)?;
    for location in 0..locations {
        let one = counts[location];
        let other = more[location];
        sums.push(Counts {
            reads: one.reads + other.reads,
            writes: one.writes + other.writes,
        })?;
    }
    Ok(sums)
}

/// Whether the counts of each location are the same.
fn are_same(counts: &[Counts], others: &[Counts]) -> bool
    ensures { result ≡ true → counts.now ≡ others.now }
{
    if counts.len() != others.len() {
        return false;
    }
    for location in 0..counts.len() {
        let one = counts[location];
        let other = others[location];
        if one.reads != other.reads || one.writes != other.writes {
            return false;
        }
    }
    true
}

/// The product of the ways at each location, if it is at most the limit.
fn all_ways(all: &[Counts]) -> Option<u64>
    requires small { IsSmall all.now }
    ensures { IsCapped MOST_CANDIDATES (product_by ways_of all.now) result }
{
    let mut product = 1;
    for counts in all {
        let ways = ways(*counts)?;
        product = capped_product(product, ways)?;
    }
    Some(product)
}

impl AccessTally {
    /// How often events read and write each location.
    pub(crate) fn new(alloc: Global, events: &[Event], locations: usize) -> Result<Self, AllocError>
        ensures { IfOk result (λ t. t ≡ tally_of locations events.now) }
    {
        let mut counts = Vec::with_capacity(alloc, locations)?;
        for location in 0..locations {
            counts.push(count(events, location))?;
        }
        Ok(AccessTally { counts })
    }

    /// Both together.
    pub(crate) fn plus(&self, alloc: Global, more: &AccessTally) -> Result<Self, AllocError>
        requires small { IsSmall (sum_tally self.now more.now) }
        ensures { IfOk result (λ t. t ≡ sum_tally self.now more.now) }
    {
        let counts = add(alloc, &self.counts, &more.counts)?;
        Ok(AccessTally { counts })
    }

    /// Whether both are the same.
    pub(crate) fn is_same(&self, other: &AccessTally) -> bool
        ensures { result ≡ true → self.now ≡ other.now }
    {
        are_same(&self.counts, &other.counts)
    }

    /// How many candidates have runs that read and write so often, if that is at most the limit.
    pub(crate) fn size(&self) -> Option<u64>
        requires small { IsSmall self.now }
        ensures { IsCapped MOST_CANDIDATES (product_by ways_of self.now) result }
    {
        all_ways(&self.counts)
    }
}
