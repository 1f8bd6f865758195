//! Runs that are in no execution behind those that are chosen, since one of them reads a value that nothing writes.

ghost use Rattle.std.specs.Prelude.{◌≡◌, ◌+◌, ◌<◌, ◌≤◌, ℕ, List, false, [], ◌∷◌, ◌++◌, length, map, drop, slice_index_or, IfOk};
ghost use Rattle.listings.specs.Lists.{ForEach, IsIn, sum_of};
ghost use Rattle.events.specs.declared.event.Event.{Event};
ghost use Rattle.events.specs.Executions.{ThreadRun};
ghost use Rattle.candidates.specs.declared.impossible.Store.{Store};
ghost use Rattle.candidates.specs.Impossible.{has_more, number_of, place_of, is_refused, is_wanting, AreAllNeeds, AreGiven, AreGivenBy, AreNeeds, AreWanted, HasNeeds, IsPassed};

use crate::choosing::RunList;
use crate::fault::MOST_CANDIDATES;
use events::{Event, Run};
use std::alloc::{AllocError, Global};

/// A location and a value that is written to it.
#[derive(Clone, Copy)]
pub(crate) struct Store {
    loc: usize,
    value: u32,
}

/// The place of the first of these stores that writes this value to this location.
fn place_of(stores: &[Store], loc: usize, value: u32) -> Option<usize>
    ensures { result ≡ place_of stores.now loc value }
{
    stores
        .iter()
        .position(|store| store.loc == loc && store.value == value)
}

/// Adds what the events write, if it isn't there.
fn add_writes(stores: &mut Vec<Store>, events: &[Event]) -> Result<(), AllocError> {
    for event in events {
        if event.access.is_write() && place_of(stores, event.loc, event.value).is_none() {
            stores.push(Store {
                loc: event.loc,
                value: event.value,
            })?;
        }
    }
    Ok(())
}

/// Adds what the runs write.
fn add_runs(stores: &mut Vec<Store>, runs: &[Run]) -> Result<(), AllocError> {
    for run in runs {
        add_writes(stores, run.events())?;
    }
    Ok(())
}

/// What the runs of all threads write. It only gives numbers to what is written: whatever it is, nothing is said that doesn't hold.
fn all_stores(alloc: Global, threads: &[RunList]) -> Result<Vec<Store>, AllocError> {
    let mut stores = Vec::new(alloc);
    for thread in threads {
        add_runs(&mut stores, thread.runs())?;
    }
    Ok(stores)
}

/// The number of a value at a location, below 64: one of the first 63 where it is stored, which it may share, and 63 where it isn't.
fn number_of(stores: &[Store], loc: usize, value: u32) -> usize
    ensures is { result ≡ number_of stores.now loc value }
    ensures few { result < 64 }
{
    match place_of(stores, loc, value) {
        Some(place) => place % 63,
        None => 63,
    }
}

/// Whether an event reads another value than the initial one.
fn is_wanting(init: &[u32], event: &Event) -> bool
    ensures { result ≡ is_wanting init.now event.now }
{
    event.is_read() && init.get(event.loc).copied().unwrap_or(0) != event.value
}

/// The number of what an event reads, as a bit, if it isn't an initial value.
fn wanted(init: &[u32], stores: &[Store], event: &Event) -> u64
    ensures { AreWanted init.now stores.now (event.now ∷ []) result }
{
    if !is_wanting(init, event) {
        return 0;
    }
    1u64 << number_of(stores, event.loc, event.value)
}

/// The number of what an event writes, as a bit.
fn given(stores: &[Store], event: &Event) -> u64
    ensures { AreGiven stores.now (event.now ∷ []) result }
{
    if !event.access.is_write() {
        return 0;
    }
    1u64 << number_of(stores, event.loc, event.value)
}

/// The numbers of what the events write.
fn given_by_all(stores: &[Store], events: &[Event]) -> u64
    ensures { AreGiven stores.now events.now result }
{
    let mut numbers: u64 = 0;
    for event in events {
        numbers |= given(stores, event);
    }
    numbers
}

/// The numbers of what any of the runs writes.
fn given_by_any(stores: &[Store], runs: &[Run]) -> u64
    ensures { (run : ThreadRun) → IsIn run runs.now → AreGiven stores.now run.events result }
{
    let mut numbers: u64 = 0;
    for run in runs {
        numbers |= given_by_all(stores, run.events());
    }
    numbers
}

/// The numbers of what any run of these threads writes.
fn given_behind(stores: &[Store], threads: &[RunList]) -> u64
    ensures { AreGivenBy stores.now threads.now result }
{
    let mut numbers: u64 = 0;
    for thread in threads {
        numbers |= given_by_any(stores, thread.runs());
    }
    numbers
}

/// What some events read and write: a bit is set in a word where something with its number is read that isn't an initial value, or is written.
#[derive(Clone, Copy)]
pub(crate) struct Needs {
    wants: u64,
    gives: u64,
}

impl Needs {
    /// Those of no events.
    pub(crate) fn none() -> Self
        ensures { (init : List ℕ) (stores : List Store) → AreNeeds init stores [] result }
    {
        Needs { wants: 0, gives: 0 }
    }

    /// Those of these events.
    fn of(init: &[u32], stores: &[Store], events: &[Event]) -> Self
        ensures { AreNeeds init.now stores.now events.now result }
    {
        let mut wants: u64 = 0;
        let mut gives: u64 = 0;
        for event in events {
            wants |= wanted(init, stores, event);
            gives |= given(stores, event);
        }
        Needs { wants, gives }
    }

    /// Those of these events and of others.
    pub(crate) fn with(self, more: Self) -> Self
        ensures { (init : List ℕ) (stores : List Store) (events others : List Event) → AreNeeds init stores events self → AreNeeds init stores others more → AreNeeds init stores (events ++ others) result }
    {
        Needs {
            wants: self.wants | more.wants,
            gives: self.gives | more.gives,
        }
    }
}

/// What each run of a thread reads and writes, and the numbers of what any run of the threads behind it writes.
#[derive(Drop)]
pub(crate) struct ThreadNeeds {
    needs: Vec<Needs>,
    behind: u64,
}

/// What each of the runs reads and writes.
fn needs_of(
    alloc: Global,
    init: &[u32],
    stores: &[Store],
    runs: &[Run],
) -> Result<Vec<Needs>, AllocError>
    ensures { IfOk result (λ v. ForEach (λ run n. AreNeeds init.now stores.now run.events n) runs.now v.items) }
{
    let mut needs = Vec::with_capacity(alloc, runs.len())?;
    for run in runs {
        needs.push(Needs::of(init, stores, run.events()))?;
    }
    Ok(needs)
}

/// The threads behind this one.
fn later(threads: &[RunList], thread: usize) -> &[RunList]
    requires { thread < length threads.now }
    ensures { result.now ≡ drop (thread + 1) threads.now }
{
    &threads[thread + 1..]
}

/// What the runs of a thread read and write, and those behind it.
fn thread_needs(
    alloc: Global,
    init: &[u32],
    stores: &[Store],
    threads: &[RunList],
    thread: usize,
) -> Result<ThreadNeeds, AllocError>
    requires { thread < length threads.now }
    ensures { IfOk result (HasNeeds init.now stores.now threads.now thread) }
{
    let needs = needs_of(alloc, init, stores, threads[thread].runs())?;
    let behind = given_behind(stores, later(threads, thread));
    Ok(ThreadNeeds { needs, behind })
}

/// The same of each thread, by the numbers that these stores give.
fn each_needs(
    alloc: Global,
    init: &[u32],
    stores: &[Store],
    threads: &[RunList],
) -> Result<Vec<ThreadNeeds>, AllocError>
    ensures { IfOk result (λ v. AreAllNeeds init.now threads.now v.items) }
{
    let mut all = Vec::with_capacity(alloc, threads.len())?;
    for thread in 0..threads.len() {
        let needs = thread_needs(alloc, init, stores, threads, thread)?;
        all.push(needs)?;
    }
    Ok(all)
}

/// What the runs of each thread read and write, and those behind it. The last threads are left out where none of them may refuse a run.
pub(crate) fn all_needs(
    alloc: Global,
    init: &[u32],
    threads: &[RunList],
) -> Result<Vec<ThreadNeeds>, AllocError>
    ensures { IfOk result (λ v. AreAllNeeds init.now threads.now v.items) }
{
    let stores = all_stores(alloc, threads)?;
    let mut needs = each_needs(alloc, init, &stores, threads)?;
    needs.truncate(count_asked(&needs));
    Ok(needs)
}

/// How many of the first threads are to be asked: up to the last that may refuse a run. It only spares work: whatever it is, nothing is refused
/// that may be in an execution.
fn count_asked(all: &[ThreadNeeds]) -> usize {
    all.iter()
        .rposition(ThreadNeeds::may_refuse)
        .map_or(0, |last| last + 1)
}

/// Whether one word has a bit that the other hasn't.
fn has_more(wants: u64, gives: u64) -> bool
    ensures { result ≡ has_more wants gives }
{
    wants & (wants ^ gives) != 0
}

impl ThreadNeeds {
    /// Whether a run may be refused where the threads before refuse none: the thread has several, or its only one wants something. If it has only one,
    /// which wants nothing, then all that this one writes was given before.
    fn may_refuse(&self) -> bool {
        match self.needs.as_slice() {
            [] => false,
            [one] => one.wants != 0,
            _ => true,
        }
    }

    /// Those of the run at a place.
    pub(crate) fn at(&self, place: usize) -> Needs
        requires { place < length self.now.needs.items }
        ensures { result ≡ slice_index_or self.now.needs.items place result }
    {
        self.needs[place]
    }

    /// Whether the run at a place is in no execution behind chosen ones: with them it wants what neither they write nor it nor any behind it.
    fn is_refused(&self, chosen: Needs, place: usize) -> bool
        requires { place < length self.now.needs.items }
        ensures { result ≡ slice_index_or (map (is_refused chosen self.now.behind) self.now.needs.items) place false }
    {
        let own = self.needs[place];
        let wants = chosen.wants | own.wants;
        let gives = chosen.gives | self.behind | own.gives;
        has_more(wants, gives)
    }

    /// How many candidates go on with the run at a place and those behind it, up to the first that may be in an execution behind chosen ones.
    #[inline(never)]
    fn passed(&self, chosen: Needs, sizes: &[u64], place: usize) -> u64
        requires place { place < length sizes.now }
        requires many { length self.now.needs.items ≡ length sizes.now }
        requires most { sum_of (λ k. k) sizes.now ≤ MOST_CANDIDATES }
        ensures { IsPassed (map (is_refused chosen self.now.behind) self.now.needs.items) sizes.now place result }
    {
        let mut sum = 0;
        for end in place..sizes.len() {
            if !self.is_refused(chosen, end) {
                return sum;
            }
            sum += sizes[end];
        }
        sum
    }

    /// The same, where `next` is what the chosen runs and this one read and write: the others aren't looked at unless these want what neither they give
    /// nor any run behind them.
    pub(crate) fn over(&self, chosen: Needs, next: Needs, sizes: &[u64], place: usize) -> u64
        requires place { place < length sizes.now }
        requires many { length self.now.needs.items ≡ length sizes.now }
        requires most { sum_of (λ k. k) sizes.now ≤ MOST_CANDIDATES }
        ensures { IsPassed (map (is_refused chosen self.now.behind) self.now.needs.items) sizes.now place result }
    {
        if !has_more(next.wants, next.gives | self.behind) {
            return 0;
        }
        self.passed(chosen, sizes, place)
    }
}
