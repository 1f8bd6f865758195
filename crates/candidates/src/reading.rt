//! What the reads read from, by numbers, and whether it has their values.

ghost use Rattle.std.specs.Prelude.{◌≡◌, ◌<◌, ◌≤◌, ◌+◌, ◌*◌, ◌^◌, ◌/◌, ◌%◌, ◌∷◌, ℕ, List, suc, length, slice_index_or, nat_lt, take, IfOk, IfSome, if◌then◌else◌};
ghost use Rattle.events.specs.declared.event.EventId.TheVariants.{Initial};
ghost use Rattle.candidates.specs.Executions.{block, reads};
ghost use Rattle.candidates.specs.Candidates.{count_sources, rf_at, source_at, write_value};
ghost use Rattle.candidates.specs.Readings.{HasSuitable, AreSuitable, HaveSuitable, IsFit, IsKnown, IsLook, IsPage, IsReadOf, IsTail, Misses, read_at};

use crate::assembly::write_value;
use crate::page::Page;
use events::{Event, EventId};
use std::alloc::{AllocError, Global};

/// What a read reads from, the number that is left for the reads behind it, and in how many ways these can read.
#[derive(Clone, Copy)]
struct Pick {
    source: EventId,
    rest: u64,
    below: u64,
}

/// The write with this number among the initial one of a location and the later ones behind it.
fn source(location: usize, later: &[EventId], number: usize) -> EventId
    requires { number ≤ length later.now }
    ensures { result ≡ slice_index_or (Initial location ∷ later.now) number (Initial 0) }
{
    if number == 0 {
        return EventId::Initial(location);
    }
    later[number - 1]
}

/// What a read of a location with these later writes reads from by this number, of those by which it and the reads behind it
/// can read.
fn pick_source(location: usize, later: &[EventId], number: u64, ways: u64) -> Pick
    requires some { 1 ≤ ways / suc (length later.now) }
    requires digit { number / (ways / suc (length later.now)) < suc (length later.now) }
    ensures source { result.source ≡ slice_index_or (Initial location ∷ later.now) (number / (ways / suc (length later.now))) (Initial 0) }
    ensures rest { result.rest ≡ number % (ways / suc (length later.now)) }
    ensures below { result.below ≡ ways / suc (length later.now) }
{
    let below = ways / (later.len() as u64 + 1);
    Pick {
        source: source(location, later, (number / below) as usize),
        rest: number % below,
        below,
    }
}

/// What a read of the page's runs reads from by this number, of those by which it and the reads behind it can read.
fn choose(page: &Page, read: &Event, number: u64, ways: u64) -> Pick
    requires page { IsReadOf page.now read.now }
    requires some { 1 ≤ ways / count_sources page.now.runs.items read.now }
    requires digit { number / (ways / count_sources page.now.runs.items read.now) < count_sources page.now.runs.items read.now }
    ensures source { result.source ≡ source_at page.now.runs.items read.now (number / (ways / count_sources page.now.runs.items read.now)) }
    ensures rest { result.rest ≡ number % (ways / count_sources page.now.runs.items read.now) }
    ensures below { result.below ≡ ways / count_sources page.now.runs.items read.now }
{
    pick_source(read.loc, page.writes_to(read.loc), number, ways)
}

/// A number that is found, and the one up to which no other way to read is behind it.
#[derive(Clone, Copy)]
pub(crate) struct Hit {
    pub(crate) at: u64,
    pub(crate) until: u64,
}

/// Whether reads have the values of what they read from, by some number or one behind it.
#[derive(Clone, Copy)]
pub(crate) enum Fit {
    /// By this one, the first, each read has the value of what it reads from.
    Whole(Hit),
    /// By the number and all behind it before this one, some read has another value.
    Until(u64),
}

/// How many sources a read has.
fn sources_of(page: &Page, read: &Event) -> u64
    requires { IsReadOf page.now read.now }
    ensures { result ≡ count_sources page.now.runs.items read.now }
{
    page.writes_to(read.loc).len() as u64 + 1
}

/// The value of a source of a read.
fn value_from(init: &[u32], page: &Page, read: &Event, place: u64) -> u32
    requires page { IsReadOf page.now read.now }
    requires place { place < count_sources page.now.runs.items read.now }
    ensures { result ≡ write_value init.now page.now.runs.items (source_at page.now.runs.items read.now place) }
{
    let later = page.writes_to(read.loc);
    write_value(init, &page.runs, source(read.loc, later, place as usize))
}

/// The first source of a read, from this one on, that has the read's value; or the number of its sources if none has.
fn fitting(init: &[u32], page: &Page, read: &Event, first: u64, sources: u64) -> u64
    requires page { IsReadOf page.now read.now }
    requires first { first ≤ sources }
    requires sources { sources ≡ count_sources page.now.runs.items read.now }
    ensures from { first ≤ result }
    ensures within { result ≤ sources }
    ensures none { Misses init.now page.now.runs.items read.now first result }
    ensures found { result < sources → write_value init.now page.now.runs.items (source_at page.now.runs.items read.now result) ≡ read.now.value }
{
    for place in first..sources {
        if value_from(init, page, read, place) == read.value {
            return place;
        }
    }
    sources
}

/// The first source of a read that has the read's value, and the next one. In place of one that isn't there stands the number of the sources.
#[derive(Clone, Copy)]
pub(crate) struct Suitable {
    pub(crate) first: u64,
    pub(crate) next: u64,
}

/// The first two sources of a read that have its value.
fn suitable_to(init: &[u32], page: &Page, read: &Event) -> Suitable
    requires page { IsReadOf page.now read.now }
    ensures { AreSuitable init.now page.now.runs.items read.now result }
{
    let sources = sources_of(page, read);
    let first = fitting(init, page, read, 0, sources);
    if first >= sources {
        return Suitable { first, next: first };
    }
    let next = fitting(init, page, read, first + 1, sources);
    Suitable { first, next }
}

/// The first two sources of each of the page's reads that have its value, where those of so many of the first reads are known.
pub(crate) fn all_suitable(
    init: &[u32],
    page: &Page,
    known: usize,
    room: Vec<Suitable>,
) -> Result<Vec<Suitable>, AllocError>
    requires page { IsPage (length init.now) page.now }
    requires known { HaveSuitable init.now page.now.runs.items page.now.reads.items room.items known }
    ensures many { IfOk result (λ v. length v.items ≡ length page.now.reads.items) }
    ensures are { IfOk result (λ v. HaveSuitable init.now page.now.runs.items page.now.reads.items v.items (length page.now.reads.items)) }
{
    let mut suitable = room;
    suitable.truncate(known);
    for place in known..page.reads.len() {
        suitable.push(suitable_to(init, page, &page.reads[place]))?;
    }
    Ok(suitable)
}

/// How far a number is into those by which a read reads from this source: `rest` tells how far it is into all of the read's, and it reads from
/// `first` by it. Where the source is a later one, it is not yet there.
fn rest_behind(first: u64, source: u64, rest: u64, below: u64) -> u64
    requires { 1 ≤ below }
    ensures { result ≡ (if nat_lt first source then 0 else rest % below) }
{
    if first < source {
        return 0;
    }
    rest % below
}

/// The first number by which a read reads from its next source that has its value, if it has one, else another.
fn other_start(start: u64, next: u64, sources: u64, below: u64, other: u64) -> u64
    requires { start + next * below < 2 ^ 64 }
    ensures { result ≡ (if nat_lt next sources then start + next * below else other) }
{
    if next < sources {
        return start + next * below;
    }
    other
}

/// The first number from this one on by which each read has the value of what it reads from, if no read finds its value in no source; else up to
/// which number none is: up to the first by which one before that read has its own from a later source.
fn compare(init: &[u32], page: &Page, reads: &[Event], number: u64) -> Fit
    requires page { IsPage (length init.now) page.now }
    requires reads { reads.now ≡ page.now.reads.items }
    requires number { number < page.now.ways }
    ensures { IsFit init.now page.now.runs.items reads.now number result }
{
    // The first number by which the reads so far read as they do, how far behind it the number is, in how many ways the others can read, and
    // the first number behind these by which each of the reads so far has its value.
    let mut start = 0;
    let mut rest = number;
    let mut ways = page.ways;
    let mut other = page.ways;
    for read in reads {
        let sources = sources_of(page, read);
        let below = ways / sources;
        let first = rest / below;
        let fit = fitting(init, page, read, first, sources);
        if fit >= sources {
            return Fit::Until(other);
        }
        let next = fitting(init, page, read, fit + 1, sources);
        other = other_start(start, next, sources, below, other);
        start += fit * below;
        rest = rest_behind(first, fit, rest, below);
        ways = below;
    }
    Fit::Whole(Hit {
        at: start + rest,
        until: other,
    })
}

/// As `compare` from the first number on, by the sources that are kept of each read.
fn compare_kept(page: &Page, reads: &[Event]) -> Fit
    requires page { (n : ℕ) × IsPage n page.now }
    requires reads { reads.now ≡ page.now.reads.items }
    requires fits { (init : List ℕ) × HasSuitable init page.now }
    ensures { (init : List ℕ) → HasSuitable init page.now → IsFit init page.now.runs.items reads.now 0 result }
{
    let mut start = 0;
    let mut ways = page.ways;
    let mut behind = page.ways;
    for (place, read) in reads.iter().enumerate() {
        let sources = sources_of(page, read);
        let suitable = page.suitable[place];
        if suitable.first >= sources {
            return Fit::Until(behind);
        }
        ways /= sources;
        behind = other_start(start, suitable.next, sources, ways, behind);
        start += suitable.first * ways;
    }
    Fit::Whole(Hit {
        at: start,
        until: behind,
    })
}

/// As `compare`, for the page's reads.
fn compare_from(init: &[u32], page: &Page, number: u64) -> Fit
    requires page { IsPage (length init.now) page.now }
    requires fits { HasSuitable init.now page.now }
    requires number { number < page.now.ways }
    ensures { IsFit init.now page.now.runs.items (reads page.now.runs.items) number result }
{
    if number > 0 {
        return compare(init, page, &page.reads, number);
    }
    compare_kept(page, &page.reads)
}

/// The reads from a place on, and in how many ways they can read.
#[derive(Clone, Copy)]
pub(crate) struct Tail {
    pub(crate) from: usize,
    pub(crate) ways: u64,
}

/// All of the page's reads.
fn all_reads(page: &Page) -> Tail
    requires { IsPage (length page.now.writes.items) page.now }
    ensures tail { IsTail page.now result }
    ensures all { result.from ≡ 0 }
{
    Tail {
        from: 0,
        ways: page.ways,
    }
}

/// The page's reads from the first on that may read differently by the two numbers.
fn differing(page: &Page, number: u64, other: u64) -> Tail
    requires { IsPage (length page.now.writes.items) page.now }
    ensures tail { IsTail page.now result }
    ensures same { take result.from (read_at page.now.runs.items page.now.reads.items number) ≡ take result.from (read_at page.now.runs.items page.now.reads.items other) }
{
    let mut from = page.reads.len();
    let mut ways = 1;
    while from > 0 {
        if number / ways == other / ways {
            return Tail { from, ways };
        }
        from -= 1;
        ways *= sources_of(page, &page.reads[from]);
    }
    Tail { from, ways }
}

/// Writes down what the reads from a place on read from by this number of all, where it is written down for those before them.
fn set_sources(page: &Page, rf: &mut [EventId], tail: Tail, number: u64)
    requires page { IsPage (length page.now.writes.items) page.now }
    requires number { number < page.now.ways }
    requires tail { IsTail page.now tail }
    requires len { length rf.old ≡ length page.now.reads.items }
    requires before { take tail.from rf.old ≡ take tail.from (read_at page.now.runs.items page.now.reads.items number) }
    ensures len { length rf.new ≡ length rf.old }
    ensures read { rf.new ≡ read_at page.now.runs.items page.now.reads.items number }
{
    let mut below = tail.ways;
    let mut rest = number % tail.ways;
    for place in tail.from..page.reads.len() {
        let pick = choose(page, &page.reads[place], rest, below);
        rf[place] = pick.source;
        rest = pick.rest;
        below = pick.below;
    }
}

/// What each read reads from, by this number.
pub(crate) fn read_from(alloc: Global, page: &Page, number: u64) -> Result<Vec<EventId>, AllocError>
    requires page { IsPage (length page.now.writes.items) page.now }
    requires number { number < page.now.ways }
    ensures { IfOk result (λ v. v.items ≡ read_at page.now.runs.items page.now.reads.items number) }
{
    let rf = Vec::new(alloc);
    read_into(page, rf, number)
}

/// Writes what each read reads from, by this number, into a list.
pub(crate) fn read_into(
    page: &Page,
    mut rf: Vec<EventId>,
    number: u64,
) -> Result<Vec<EventId>, AllocError>
    requires page { IsPage (length page.now.writes.items) page.now }
    requires number { number < page.now.ways }
    ensures { IfOk result (λ v. v.items ≡ read_at page.now.runs.items page.now.reads.items number) }
{
    rf.resize(page.reads.len(), EventId::Initial(0))?;
    set_sources(page, &mut rf, all_reads(page), number);
    Ok(rf)
}

/// Makes what the reads read from by one number to that by another.
pub(crate) fn turn_sources(page: &Page, mut rf: Vec<EventId>, from: u64, to: u64) -> Vec<EventId>
    requires page { IsPage (length page.now.writes.items) page.now }
    requires number { to < page.now.ways }
    requires rf { rf.items ≡ rf_at page.now.runs.items from }
    ensures { result.items ≡ rf_at page.now.runs.items to }
{
    if from == to {
        return rf;
    }
    let tail = differing(page, from, to);
    set_sources(page, &mut rf, tail, to);
    rf
}

/// What is found from a number of some runs on.
#[derive(Clone, Copy)]
pub(crate) enum Look {
    /// The first candidate that is an execution.
    Found(Hit),
    /// From the number to before this one no candidate is.
    Until(u64),
}

/// The first execution of the page's runs from this number on; or up to which number none is.
fn look_anew(init: &[u32], page: &Page, number: u64) -> Look
    requires page { IsPage (length init.now) page.now }
    requires fits { HasSuitable init.now page.now }
    requires number { number < block (length init.now) page.now.runs.items }
    ensures { IsLook init.now page.now.runs.items number result }
{
    match compare_from(init, page, number / page.orders) {
        Fit::Whole(hit) => {
            let start = hit.at * page.orders;
            let until = hit.until * page.orders;
            if start < number {
                return Look::Found(Hit { at: number, until });
            }
            Look::Found(Hit { at: start, until })
        }
        Fit::Until(next) => Look::Until(next * page.orders),
    }
}

/// The first execution of the page's runs from this number on, where one of them is known; or up to which number none is.
fn look_behind(init: &[u32], page: &Page, known: Hit, number: u64) -> Look
    requires page { IsPage (length init.now) page.now }
    requires fits { HasSuitable init.now page.now }
    requires known { IsKnown init.now page.now.runs.items known }
    requires number { number < block (length init.now) page.now.runs.items }
    ensures { IsLook init.now page.now.runs.items number result }
{
    let last = known.at / page.orders;
    let reading = number / page.orders;
    if last == reading {
        let until = known.until;
        return Look::Found(Hit { at: number, until });
    }
    if last < reading && number < known.until {
        return Look::Until(known.until);
    }
    look_anew(init, page, number)
}

/// The first execution of the page's runs from this number on; or up to which number none is. One may be known.
pub(crate) fn look_at(init: &[u32], page: &Page, known: Option<Hit>, number: u64) -> Look
    requires page { IsPage (length init.now) page.now }
    requires fits { HasSuitable init.now page.now }
    requires known { IfSome known (IsKnown init.now page.now.runs.items) }
    requires number { number < block (length init.now) page.now.runs.items }
    ensures { IsLook init.now page.now.runs.items number result }
{
    match known {
        Some(hit) => look_behind(init, page, hit, number),
        None => look_anew(init, page, number),
    }
}
