//! Choices of one run of each thread.

ghost use Rattle.std.specs.Prelude.{◌≡◌, ◌+◌, ◌<◌, ◌≤◌, ℕ, [], ◌∷◌, List, length, map, take, drop, slice_index_or, IfOk, IfSome, OnOk};
ghost use Rattle.listings.specs.Lists.{IsIn, sum_of};
ghost use Rattle.candidates.specs.Groups.{tally_of, sum_tally, size_by, sizes_of, HasRoom, IsSmall};
ghost use Rattle.candidates.specs.declared.counts.Counts.{Counts};
ghost use Rattle.candidates.specs.declared.levels.Level.{Level};
ghost use Rattle.candidates.specs.Impossible.{IsChosen};
ghost use Rattle.candidates.specs.Levels.{AreLevels, StandsAt, Stands, places_of, tally_to};

use crate::counts::AccessTally;
use crate::fault::MOST_CANDIDATES;
use crate::groups::Groups;
use crate::levels::Level;
use events::Run;
use std::alloc::{AllocError, Global};
use std::marker::Model;

/// The runs of one thread.
#[derive(Drop)]
pub(crate) struct RunList {
    runs: Vec<Run>,
}

impl Model for RunList {
    ghost use Rattle.std.specs.Prelude.{List};
    ghost use Rattle.events.specs.Executions.{ThreadRun};

    ghost Value = { List ThreadRun };

    ghost view = { λ l. l.runs.items };
}

impl RunList {
    /// The list of these runs.
    pub(crate) fn new(runs: Vec<Run>) -> Self
        ensures { result ≡ runs.items }
    {
        RunList { runs }
    }

    /// The runs, in order.
    pub(crate) fn runs(&self) -> &[Run]
        ensures { result.now ≡ self.now }
    {
        &self.runs
    }
}

/// The groups of the runs of each thread.
pub(crate) fn group_all(
    alloc: Global,
    threads: &[RunList],
    locations: usize,
) -> Result<Vec<Groups>, AllocError>
    ensures { IfOk result (λ v. v.items ≡ map (λ runs. map (λ run. tally_of locations run.events) runs) threads.now) }
{
    let mut groups = Vec::new(alloc);
    for thread in threads {
        groups.push(Groups::new(alloc, thread.runs(), locations)?)?;
    }
    Ok(groups)
}

/// A part of a sum, and how far into it a number is.
#[derive(Clone, Copy)]
pub(crate) struct Part {
    pub(crate) place: usize,
    pub(crate) rest: u64,
}

/// The part that a number below the sum is in, where it isn't in those before the place `from`, whose sum is `before`.
fn part_from(sizes: &[u64], from: usize, before: u64, number: u64) -> Part
    requires before { before ≡ sum_of (λ n. n) (take from sizes.now) }
    requires order { before ≤ number }
    requires number { number < sum_of (λ n. n) sizes.now }
    ensures place { result.place < length sizes.now }
    ensures rest { result.rest < slice_index_or sizes.now result.place 0 }
    ensures sum { number ≡ sum_of (λ n. n) (take result.place sizes.now) + result.rest }
{
    let mut rest = number - before;
    for place in from..sizes.len() {
        let size = sizes[place];
        if rest < size {
            return Part { place, rest };
        }
        rest -= size;
    }
    unreachable!()
}

/// The part that a number below the sum is in. It is sought from the place of the level on, or from the first where the
/// number is before that.
fn part_at(level: &Level, number: u64) -> Part
    requires stands { Stands level.now }
    requires number { number < sum_of (λ n. n) level.now.sizes.items }
    ensures place { result.place < length level.now.sizes.items }
    ensures rest { result.rest < slice_index_or level.now.sizes.items result.place 0 }
    ensures sum { number ≡ sum_of (λ n. n) (take result.place level.now.sizes.items) + result.rest }
{
    if number < level.before {
        return part_from(&level.sizes, 0, 0, number);
    }
    part_from(&level.sizes, level.place, level.before, number)
}

/// The run at which a level stands, where a number is in it: none needs to be sought then.
fn stay(level: &Level, number: u64) -> Option<Part>
    requires stands { Stands level.now }
    ensures { IfSome result (λ c. (c.place ≡ level.now.place) × IsChosen level.now.sizes.items number c.place c.rest) }
{
    if number < level.before {
        return None;
    }
    let rest = number - level.before;
    if rest >= level.sizes[level.place] {
        return None;
    }
    Some(Part {
        place: level.place,
        rest,
    })
}

/// Lets the level of a thread stand at a run. The levels behind fall away unless that run reads and writes each location as often as the one
/// at which it stood.
fn stand_at(levels: &mut Vec<Level>, groups: &[Groups], thread: usize, place: usize, before: u64)
    requires thread { (thread < length levels.old.items) × (thread < length groups.now) }
    requires place { (l : Level) → l ≡ slice_index_or levels.old.items thread l → StandsAt l.sizes.items place before }
    ensures levels { (n : ℕ) → AreLevels n groups.now levels.old.items → AreLevels n groups.now levels.new.items }
    ensures same { (n : ℕ) → tally_to n groups.now (places_of levels.new.items) thread ≡ tally_to n groups.now (places_of levels.old.items) thread }
    ensures place { (thread < length levels.new.items) × (slice_index_or (places_of levels.new.items) thread 0 ≡ place) }
{
    let level = &mut levels[thread];
    let same = groups[thread].has_both(level.place, place);
    level.place = place;
    level.before = before;
    if !same {
        levels.truncate(thread + 1);
    }
}

/// The threads behind this one.
fn after(groups: &[Groups], thread: usize) -> &[Groups]
    requires { thread < length groups.now }
    ensures { result.now ≡ drop (thread + 1) groups.now }
{
    &groups[thread + 1..]
}

/// How many candidates go on with each run of a thread, behind the runs that are tallied.
fn count_runs(
    alloc: Global,
    groups: &[Groups],
    thread: usize,
    tally: &AccessTally,
) -> Result<Vec<u64>, AllocError>
    requires thread { thread < length groups.now }
    requires room { (t : List Counts) → IsIn t (slice_index_or groups.now thread []) → HasRoom (sum_tally tally.now t) (drop (thread + 1) groups.now) }
    requires most { size_by tally.now (slice_index_or groups.now thread [] ∷ drop (thread + 1) groups.now) ≤ MOST_CANDIDATES }
    ensures { IfOk result (λ v. v.items ≡ sizes_of tally.now (slice_index_or groups.now thread []) (drop (thread + 1) groups.now)) }
{
    let sizes = groups[thread].sizes(alloc, tally, after(groups, thread))?;
    Ok(sizes.unwrap())
}

/// How often the runs that are chosen of the threads before the next level read and write each location.
fn tally_ahead(
    alloc: Global,
    levels: &[Level],
    groups: &[Groups],
    locations: usize,
) -> Result<AccessTally, AllocError>
    requires levels { AreLevels locations groups.now levels.now }
    requires few { length levels.now ≤ length groups.now }
    requires small { IsSmall (tally_to locations groups.now (places_of levels.now) (length levels.now)) }
    ensures { IfOk result (λ t. t ≡ tally_to locations groups.now (places_of levels.now) (length levels.now)) }
{
    if levels.is_empty() {
        return AccessTally::new(alloc, &[], locations);
    }
    let last = levels.len() - 1;
    let level = &levels[last];
    level.tally.plus(alloc, groups[last].tally_at(level.place))
}

/// Adds the level of a thread, if it isn't there, behind those of the threads before it.
fn enter(
    alloc: Global,
    levels: &mut Vec<Level>,
    groups: &[Groups],
    thread: usize,
    locations: usize,
) -> Result<(), AllocError>
    requires levels { AreLevels locations groups.now levels.old.items }
    requires there { thread ≤ length levels.old.items }
    requires thread { thread < length groups.now }
    requires room { HasRoom (tally_to locations groups.now (places_of levels.old.items) thread) (slice_index_or groups.now thread [] ∷ drop (thread + 1) groups.now) }
    requires most { size_by (tally_to locations groups.now (places_of levels.old.items) thread) (slice_index_or groups.now thread [] ∷ drop (thread + 1) groups.now) ≤ MOST_CANDIDATES }
    requires some { 1 ≤ size_by (tally_to locations groups.now (places_of levels.old.items) thread) (slice_index_or groups.now thread [] ∷ drop (thread + 1) groups.now) }
    ensures levels { AreLevels locations groups.now levels.new.items }
    ensures same { tally_to locations groups.now (places_of levels.new.items) thread ≡ tally_to locations groups.now (places_of levels.old.items) thread }
    ensures there { OnOk result (thread < length levels.new.items) }
{
    if thread < levels.len() {
        return Ok(());
    }
    let tally = tally_ahead(alloc, levels, groups, locations)?;
    let sizes = count_runs(alloc, groups, thread, &tally)?;
    levels.push(Level {
        tally,
        sizes,
        place: 0,
        before: 0,
    })?;
    Ok(())
}

/// The run of a thread that a number is in, behind the runs that are chosen of the threads before it, and how far into this run's
/// candidates the number is. The level of the thread stands at it then.
pub(crate) fn choose_run(
    alloc: Global,
    levels: &mut Vec<Level>,
    groups: &[Groups],
    thread: usize,
    locations: usize,
    number: u64,
) -> Result<Part, AllocError>
    requires levels { AreLevels locations groups.now levels.old.items }
    requires there { thread ≤ length levels.old.items }
    requires thread { thread < length groups.now }
    requires room { HasRoom (tally_to locations groups.now (places_of levels.old.items) thread) (slice_index_or groups.now thread [] ∷ drop (thread + 1) groups.now) }
    requires most { size_by (tally_to locations groups.now (places_of levels.old.items) thread) (slice_index_or groups.now thread [] ∷ drop (thread + 1) groups.now) ≤ MOST_CANDIDATES }
    requires number { number < size_by (tally_to locations groups.now (places_of levels.old.items) thread) (slice_index_or groups.now thread [] ∷ drop (thread + 1) groups.now) }
    ensures chosen { IfOk result (λ c. IsChosen (sizes_of (tally_to locations groups.now (places_of levels.old.items) thread) (slice_index_or groups.now thread []) (drop (thread + 1) groups.now)) number c.place c.rest) }
    ensures next { IfOk result (λ c. (thread < length levels.new.items) × (tally_to locations groups.now (places_of levels.new.items) (thread + 1) ≡ sum_tally (tally_to locations groups.now (places_of levels.old.items) thread) (slice_index_or (slice_index_or groups.now thread []) c.place []))) }
    ensures same { OnOk result (tally_to locations groups.now (places_of levels.new.items) thread ≡ tally_to locations groups.now (places_of levels.old.items) thread) }
    ensures levels { AreLevels locations groups.now levels.new.items }
{
    enter(alloc, levels, groups, thread, locations)?;
    let level = &levels[thread];
    if let Some(part) = stay(level, number) {
        return Ok(part);
    }
    let part = part_at(level, number);
    stand_at(levels, groups, thread, part.place, number - part.rest);
    Ok(part)
}
