//! The runs of a thread in groups that read and write each location equally often.

ghost use Rattle.std.specs.Prelude.{◌≡◌, ◌<◌, List, [], ◌∷◌, length, map, IfOk, MatchOption, slice_index_or, All, true};
ghost use Rattle.listings.specs.Lists.{IsIn};
ghost use Rattle.candidates.specs.declared.counts.Counts.{Counts};
ghost use Rattle.candidates.specs.Candidates.{IsCapped};
ghost use Rattle.candidates.specs.Groups.{tally_of, sum_tally, size_by, sizes_of, HasRoom, IsOneAbove};

use crate::capped::capped_sum;
use crate::counts::AccessTally;
use crate::fault::MOST_CANDIDATES;
use events::Run;
use std::alloc::{AllocError, Global};
use std::marker::Model;

/// The groups of the runs of a thread: how often the runs of each group read and write each location, and for
/// each run its group.
#[derive(Drop)]
pub(crate) struct Groups {
    tallies: Vec<AccessTally>,
    places: Vec<usize>,
}

impl Model for Groups {
    ghost use Rattle.std.specs.Prelude.{List};
    ghost use Rattle.candidates.specs.declared.counts.Counts.{Counts};
    ghost use Rattle.candidates.specs.Groups.{spread, ArePlaces};

    ghost Value = { List (List Counts) };

    ghost view = { λ g. spread g.tallies.items g.places.items };

    ghost invariant = { λ g. ArePlaces g.tallies.items g.places.items };
}

/// The place of a tally among others.
fn place_of(tallies: &[AccessTally], tally: &AccessTally) -> Option<usize>
    ensures { MatchOption result (Unit {0}) (λ p. (p < length tallies.now) × (slice_index_or tallies.now p [] ≡ tally.now)) }
{
    for place in 0..tallies.len() {
        if tallies[place].is_same(tally) {
            return Some(place);
        }
    }
    None
}

/// The sizes at these places.
fn at_places(alloc: Global, sizes: &[u64], places: &[usize]) -> Result<Vec<u64>, AllocError>
    requires { All (λ p. p < length sizes.now) places.now }
    ensures { IfOk result (λ v. v.items ≡ map (λ p. slice_index_or sizes.now p 0) places.now) }
{
    let mut all = Vec::with_capacity(alloc, places.len())?;
    for place in places {
        all.push(sizes[*place])?;
    }
    Ok(all)
}

/// How many candidates have the runs that are tallied, a run of each of these groups, and runs of the threads behind.
#[cycle(counting)]
fn group_sizes(
    alloc: Global,
    tally: &AccessTally,
    tallies: &[AccessTally],
    rest: &[Groups],
) -> Result<Option<Vec<u64>>, AllocError>
    requires room { (t : List Counts) → IsIn t tallies.now → HasRoom (sum_tally tally.now t) rest.now }
    ensures { IfOk result (λ o. MatchOption o (IsOneAbove tally.now tallies.now rest.now) (λ v. v.items ≡ sizes_of tally.now tallies.now rest.now)) }
{
    let mut sizes = Vec::new(alloc);
    for group in tallies {
        let more = tally.plus(alloc, group)?;
        let Some(size) = count(alloc, &more, rest)? else {
            return Ok(None);
        };
        sizes.push(size)?;
    }
    Ok(Some(sizes))
}

/// How many candidates have the runs that are tallied and runs of the threads behind, if that is at most the limit. Of
/// the runs of a thread it looks at one of each group.
#[cycle(counting)]
pub(crate) fn count(
    alloc: Global,
    tally: &AccessTally,
    threads: &[Groups],
) -> Result<Option<u64>, AllocError>
    requires room { HasRoom tally.now threads.now }
    ensures { IfOk result (IsCapped MOST_CANDIDATES (size_by tally.now threads.now)) }
{
    match threads {
        [] => Ok(tally.size()),
        [first, rest @ ..] => match first.sizes(alloc, tally, rest)? {
            Some(sizes) => Ok(capped_sum(&sizes)),
            None => Ok(None),
        },
    }
}

/// How many candidates have a run of each thread, if that is at most the limit.
pub(crate) fn count_all(
    alloc: Global,
    threads: &[Groups],
    locations: usize,
) -> Result<Option<u64>, AllocError>
    requires room { HasRoom (tally_of locations []) threads.now }
    ensures { IfOk result (IsCapped MOST_CANDIDATES (size_by (tally_of locations []) threads.now)) }
{
    let empty = AccessTally::new(alloc, &[], locations)?;
    count(alloc, &empty, threads)
}

impl Groups {
    /// The groups of these runs.
    pub(crate) fn new(alloc: Global, runs: &[Run], locations: usize) -> Result<Self, AllocError>
        ensures { IfOk result (λ g. g ≡ map (λ run. tally_of locations run.events) runs.now) }
    {
        let mut tallies = Vec::new(alloc);
        let mut places = Vec::new(alloc);
        for run in runs {
            let tally = AccessTally::new(alloc, run.events(), locations)?;
            match place_of(&tallies, &tally) {
                Some(place) => places.push(place)?,
                None => {
                    places.push(tallies.len())?;
                    tallies.push(tally)?;
                }
            }
        }
        Ok(Groups { tallies, places })
    }

    /// How often the run at a place reads and writes each location.
    pub(crate) fn tally_at(&self, place: usize) -> &AccessTally
        requires { place < length self.now }
        ensures { result.now ≡ slice_index_or self.now place [] }
    {
        &self.tallies[self.places[place]]
    }

    /// Whether the runs at two places are in one group.
    pub(crate) fn has_both(&self, place: usize, other: usize) -> bool
        ensures { result ≡ true → slice_index_or self.now place [] ≡ slice_index_or self.now other [] }
    {
        if place >= self.places.len() || other >= self.places.len() {
            return false;
        }
        self.places[place] == self.places[other]
    }

    /// For each run, how many candidates have the runs that are tallied, this run, and runs of the threads behind.
    #[cycle(counting)]
    pub(crate) fn sizes(
        &self,
        alloc: Global,
        tally: &AccessTally,
        rest: &[Groups],
    ) -> Result<Option<Vec<u64>>, AllocError>
        requires room { (t : List Counts) → IsIn t self.now → HasRoom (sum_tally tally.now t) rest.now }
        ensures { IfOk result (λ o. MatchOption o (MOST_CANDIDATES < size_by tally.now (self.now ∷ rest.now)) (λ v. v.items ≡ sizes_of tally.now self.now rest.now)) }
    {
        match group_sizes(alloc, tally, &self.tallies, rest)? {
            Some(sizes) => Ok(Some(at_places(alloc, &sizes, &self.places)?)),
            None => Ok(None),
        }
    }
}
