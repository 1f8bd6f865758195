//! The way down the threads of a test to the runs of a candidate.

ghost use Rattle.std.specs.Prelude.{◌≡◌, ◌+◌, ◌<◌, ◌≤◌, ◌⊎◌, [], ◌∷◌, ◌++◌, length, map, slice_index_or, take, true, None, IfOk, IfSome, OnOk};
ghost use Rattle.events.specs.Executions.{empty_run};
ghost use Rattle.candidates.specs.Candidates.{size_of};
ghost use Rattle.candidates.specs.Levels.{AreLevels, ArePlaced};
ghost use Rattle.candidates.specs.Located.{IsLocated, AreKept, AreThreads, Joins, choices_by};
ghost use Rattle.candidates.specs.Outlines.{outline, outlines, written, writings};
ghost use Rattle.candidates.specs.Readings.{MayBeStretch};
ghost use Rattle.candidates.specs.Walks.{IsReached};

use crate::assembly::open_page;
use crate::choosing::{RunList, choose_run};
use crate::groups::Groups;
use crate::impossible::{Needs, ThreadNeeds};
use crate::levels::Level;
use crate::page::Stretch;
use events::{Event, Run};
use std::alloc::{AllocError, Global};

/// Whether two events do the same to one location, whatever their values are.
fn do_the_same(event: &Event, other: &Event) -> bool
    ensures { result ≡ true → outline event.now ≡ outline other.now }
{
    event.access == other.access && event.loc == other.loc
}

/// Whether events do what the others do, one by one, whatever their values are.
pub(crate) fn are_alike(events: &[Event], others: &[Event]) -> bool
    ensures { result ≡ true → map outline events.now ≡ map outline others.now }
{
    if events.len() != others.len() {
        return false;
    }
    for place in 0..events.len() {
        if !do_the_same(&events[place], &others[place]) {
            return false;
        }
    }
    true
}

/// Whether two events do the same to one location, and are of one value if they write.
fn write_the_same(event: &Event, other: &Event) -> bool
    ensures { result ≡ true → written event.now ≡ written other.now }
{
    if event.access.is_write() && event.value != other.value {
        return false;
    }
    event.loc == other.loc && event.access == other.access
}

/// Whether events do what the others do, one by one, and write the same values.
fn are_calm(events: &[Event], others: &[Event]) -> bool
    ensures { result ≡ true → map written events.now ≡ map written others.now }
{
    if events.len() != others.len() {
        return false;
    }
    for place in 0..events.len() {
        if !write_the_same(&events[place], &others[place]) {
            return false;
        }
    }
    true
}

/// How a run is like another that stood at its place: whether it writes the same, and whether its events do the same.
#[derive(Clone, Copy)]
pub(crate) struct Likeness {
    pub(crate) calm: bool,
    pub(crate) alike: bool,
}

/// How events are like the others.
fn how_like(events: &[Event], others: &[Event]) -> Likeness
    ensures calm { result.calm ≡ true → map written events.now ≡ map written others.now }
    ensures alike { result.alike ≡ true → map outline events.now ≡ map outline others.now }
{
    if are_calm(events, others) {
        return Likeness {
            calm: true,
            alike: true,
        };
    }
    Likeness {
        calm: false,
        alike: are_alike(events, others),
    }
}

/// What stays of the runs that stood there before: how many of the first stay themselves, whether all write the same, and whether the events of
/// all do the same.
#[derive(Clone, Copy)]
pub(crate) struct Kept {
    pub(crate) same: usize,
    pub(crate) calm: bool,
    pub(crate) alike: bool,
}

impl Kept {
    /// What stays once the run of this thread is in its place: it is so like the one that stood there, unless it stood there itself.
    #[tactic(auto, using(crate::proofs::Staying::joins_lesser))]
    fn joined(self, thread: usize, change: Option<Likeness>) -> Self
        ensures same { Joins thread self.same result.same change }
        ensures calm { result.calm ≡ true → (self.calm ≡ true) × IfSome change (λ like. like.calm ≡ true) }
        ensures alike { result.alike ≡ true → (self.alike ≡ true) × IfSome change (λ like. like.alike ≡ true) }
    {
        let Kept { same, calm, alike } = self;
        match change {
            None => Kept { same, calm, alike },
            Some(like) => Kept {
                same: same.min(thread),
                calm: calm && like.calm,
                alike: alike && like.alike,
            },
        }
    }

    /// The same, where the events of all runs do what those did that were there, if anything was.
    fn of_whole(self, whole: bool) -> Option<Self>
        ensures { IfSome result (λ k. (k ≡ self) × (whole ≡ true) × (self.alike ≡ true)) }
    {
        if whole && self.alike {
            return Some(self);
        }
        None
    }
}

/// Whether this is the place of a thread's run.
fn is_placed(places: &[usize], thread: usize, place: usize) -> bool
    ensures { result ≡ true → (thread < length places.now) × (slice_index_or places.now thread 0 ≡ place) }
{
    if thread >= places.len() {
        return false;
    }
    places[thread] == place
}

/// Puts a copy of the run at a place of a thread in a list, if it isn't there already, and says how it is like the one that stood there. Those before
/// it stay as they are.
fn place_run(
    runs: &mut Vec<Run>,
    places: &mut Vec<usize>,
    threads: &[RunList],
    thread: usize,
    place: usize,
) -> Result<Option<Likeness>, AllocError>
    requires thread { thread < length threads.now }
    requires place { place < length (slice_index_or threads.now thread []) }
    requires done { thread ≤ length places.old.items }
    requires placed { ArePlaced threads.now runs.old.items places.old.items }
    ensures put { OnOk result (take (thread + 1) runs.new.items ≡ take thread runs.old.items ++ slice_index_or (slice_index_or threads.now thread []) place empty_run ∷ []) }
    ensures done { OnOk result (thread < length places.new.items) }
    ensures placed { ArePlaced threads.now runs.new.items places.new.items }
    ensures same { IfOk result (λ change. change ≡ None → runs.new.items ≡ runs.old.items) }
    ensures calm { IfOk result (λ change. IfSome change (λ like. like.calm ≡ true → writings runs.new.items ≡ writings runs.old.items)) }
    ensures alike { IfOk result (λ change. IfSome change (λ like. like.alike ≡ true → outlines runs.new.items ≡ outlines runs.old.items)) }
{
    if is_placed(places, thread, place) {
        return Ok(None);
    }
    let run = &threads[thread].runs()[place];
    if thread < places.len() {
        let like = how_like(runs[thread].events(), run.events());
        runs[thread].become_copy(run)?;
        places[thread] = place;
        return Ok(Some(like));
    }
    runs.truncate(thread);
    runs.push(run.copy()?)?;
    places.push(place)?;
    Ok(Some(Likeness {
        calm: false,
        alike: false,
    }))
}

/// Where the candidate with a number is: its number among those with its runs, and what stays of the runs that were there before; or up to which
/// number no execution stands.
#[derive(Clone, Copy)]
pub(crate) enum Located {
    At(u64, Kept),
    Until(u64),
}

/// The runs of each thread, in groups, what they read and write, and the initial values.
#[derive(Drop)]
pub(crate) struct Threads<'a> {
    pub(crate) runs: &'a [RunList],
    pub(crate) groups: &'a [Groups],
    pub(crate) needs: &'a [ThreadNeeds],
    pub(crate) init: &'a [u32],
}

/// Where the candidate with this number is, and its runs. It goes down the threads: in each it takes the run that the number
/// is in. Where that run is in no execution behind those so far, it passes over all candidates with them and with this one, and
/// with the next that are in none either. The last threads aren't asked where they refuse none.
fn locate(
    alloc: Global,
    threads: &Threads<'_>,
    levels: &mut Vec<Level>,
    runs: &mut Vec<Run>,
    places: &mut Vec<usize>,
    number: u64,
) -> Result<Located, AllocError>
    requires threads { AreThreads threads.now }
    requires levels { AreLevels (length threads.now.init.now) threads.now.groups.now levels.old.items }
    requires placed { ArePlaced threads.now.runs.now runs.old.items places.old.items }
    requires number { number < size_of (choices_by threads.now) }
    ensures located { IfOk result (IsLocated (choices_by threads.now) number runs.new.items) }
    ensures kept { IfOk result (AreKept runs.old.items runs.new.items) }
    ensures placed { ArePlaced threads.now.runs.now runs.new.items places.new.items }
    ensures levels { AreLevels (length threads.now.init.now) threads.now.groups.now levels.new.items }
{
    let few = runs.len() <= threads.runs.len();
    let mut kept = Kept {
        same: threads.runs.len(),
        calm: few,
        alike: few,
    };
    let mut chosen = Needs::none();
    let mut rest = number;
    for thread in 0..threads.runs.len() {
        let choice = choose_run(
            alloc,
            levels,
            threads.groups,
            thread,
            threads.init.len(),
            rest,
        )?;
        if thread < threads.needs.len() {
            let needs = &threads.needs[thread];
            let level = &levels[thread];
            let next = chosen.with(needs.at(choice.place));
            let passed = needs.over(chosen, next, &level.sizes, choice.place);
            if passed > 0 {
                return Ok(Located::Until(number - choice.rest + passed));
            }
            chosen = next;
        }
        let change = place_run(runs, places, threads.runs, thread, choice.place)?;
        kept = kept.joined(thread, change);
        rest = choice.rest;
    }
    runs.truncate(threads.runs.len());
    Ok(Located::At(rest, kept))
}

/// Makes a stretch to that in which a number is; or says up to which number no execution stands.
#[inline(never)]
pub(crate) fn go_to(
    alloc: Global,
    threads: &Threads<'_>,
    levels: &mut Vec<Level>,
    stretch: &mut Stretch,
    number: u64,
) -> Result<Option<u64>, AllocError>
    requires threads { AreThreads threads.now }
    requires levels { AreLevels (length threads.now.init.now) threads.now.groups.now levels.old.items }
    requires stretch { MayBeStretch (choices_by threads.now) stretch.old }
    requires number { number < size_of (choices_by threads.now) }
    ensures reached { IfOk result (IsReached (choices_by threads.now) number stretch.new) }
    ensures stretch { MayBeStretch (choices_by threads.now) stretch.new }
    ensures levels { AreLevels (length threads.now.init.now) threads.now.groups.now levels.new.items }
{
    let whole = stretch.size > 0;
    stretch.size = 0;
    match locate(
        alloc,
        threads,
        levels,
        &mut stretch.page.runs,
        &mut stretch.page.places,
        number,
    )? {
        Located::At(rest, kept) => {
            let kept = kept.of_whole(whole);
            open_page(alloc, threads.init, &mut stretch.page, kept)?;
            stretch.first = number - rest;
            stretch.size = stretch.page.ways * stretch.page.orders;
            Ok(None)
        }
        Located::Until(next) => Ok(Some(next)),
    }
}
