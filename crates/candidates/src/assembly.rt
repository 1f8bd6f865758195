//! The parts of the candidates with the same runs, and the candidates.

ghost use Rattle.std.specs.Prelude.{◌≡◌, ◌+◌, ◌/◌, ◌%◌, ◌++◌, ◌⊎◌, [], ◌∷◌, ◌<◌, ◌≤◌, ℕ, List, length, map, slice_index_or, take, drop, filter, true, All, IfOk, IfSome, OnOk, Some};
ghost use Rattle.events.specs.Executions.{ThreadRun, empty_run, is_read};
ghost use Rattle.listings.specs.Lists.{factorial, product_by};
ghost use Rattle.candidates.specs.Bounds.{AreWithin};
ghost use Rattle.candidates.specs.Executions.{writes_from, later_writes, reads, upto, block};
ghost use Rattle.candidates.specs.Candidates.{count_co, candidate, no_execution, orders_by, rf_at, write_value};
ghost use Rattle.candidates.specs.Depths.{depths_of};
ghost use Rattle.candidates.specs.Levels.{ArePlaced};
ghost use Rattle.candidates.specs.Outlines.{HasNumber, IsOfRuns, WasOf, outline, outlines};
ghost use Rattle.candidates.specs.Readings.{HasSuitable, IsPage, sources_among, orders_among};

use crate::depths::list_depths;
use crate::fault::MOST_CANDIDATES;
use crate::ordering::{coherence, turn_orders};
use crate::page::{Page, Writes};
use crate::reading::{all_suitable, read_from, read_into, turn_sources};
use crate::threads::{Kept, are_alike};
use events::{Coherence, Event, EventId, Graph, GraphParts, Run, copy_runs};
use std::alloc::{AllocError, Global};
use std::mem::replace;

/// Adds the writes to a location among the events of a thread.
fn push_writes(
    writes: &mut Vec<EventId>,
    location: usize,
    thread: usize,
    events: &[Event],
) -> Result<(), AllocError>
    ensures { OnOk result (writes.new.items ≡ writes.old.items ++ writes_from location thread 0 events.now) }
{
    for (place, event) in events.iter().enumerate() {
        if event.writes_to(location) {
            writes.push(EventId::Own(thread, place))?;
        }
    }
    Ok(())
}

/// The writes of the threads to a location, in the room of others.
fn later_writes(
    runs: &[Run],
    location: usize,
    room: Vec<EventId>,
) -> Result<Vec<EventId>, AllocError>
    ensures { IfOk result (λ v. v.items ≡ later_writes runs.now location) }
{
    let mut writes = room;
    writes.clear();
    for (thread, run) in runs.iter().enumerate() {
        push_writes(&mut writes, location, thread, run.events())?;
    }
    Ok(writes)
}

/// Puts the later writes of a location at its place of a list, in the room of those that stand there. Those before it stay as
/// they are.
fn put_writes(
    alloc: Global,
    all: &mut Vec<Writes>,
    location: usize,
    runs: &[Run],
) -> Result<(), AllocError>
    requires place { location ≤ length all.old.items }
    requires most { factorial (length (later_writes runs.now location)) ≤ MOST_CANDIDATES }
    ensures { OnOk result ((take (location + 1) all.new.items ≡ take location all.old.items ++ later_writes runs.now location ∷ []) × (location < length all.new.items)) }
{
    if location >= all.len() {
        all.push(Writes::new(later_writes(runs, location, Vec::new(alloc))?))?;
        return Ok(());
    }
    let room = replace(&mut all[location], Writes::none(alloc)).into_list();
    all[location] = Writes::new(later_writes(runs, location, room)?);
    Ok(())
}

/// The later writes of each location, in the room of others.
fn all_writes(
    alloc: Global,
    runs: &[Run],
    locations: usize,
    room: Vec<Writes>,
) -> Result<Vec<Writes>, AllocError>
    requires { count_co locations runs.now ≤ MOST_CANDIDATES }
    ensures { IfOk result (λ v. v.items ≡ map (later_writes runs.now) (upto locations)) }
{
    let mut all = room;
    for location in 0..locations {
        put_writes(alloc, &mut all, location, runs)?;
    }
    all.truncate(locations);
    Ok(all)
}

/// Adds the reads among the events of a thread.
fn push_reads(reads: &mut Vec<Event>, events: &[Event]) -> Result<(), AllocError>
    ensures { OnOk result (reads.new.items ≡ reads.old.items ++ filter (λ e. is_read e.access) events.now) }
{
    for event in events {
        if event.is_read() {
            reads.push(event.copy())?;
        }
    }
    Ok(())
}

/// How many of the events of a thread are reads.
fn count_reads(events: &[Event]) -> usize
    ensures { result ≡ length (filter (λ e. is_read e.access) events.now) }
{
    let mut count = 0;
    for event in events {
        if event.is_read() {
            count += 1;
        }
    }
    count
}

/// The runs from a thread on.
fn runs_from(runs: &[Run], thread: usize) -> &[Run]
    requires { thread ≤ length runs.now }
    ensures { result.now ≡ drop thread runs.now }
{
    &runs[thread..]
}

/// How many reads so many of the first threads have, where all have so many.
fn reads_before(runs: &[Run], threads: usize, all: usize) -> usize
    requires threads { threads ≤ length runs.now }
    requires all { all ≡ length (reads runs.now) }
    ensures { result ≡ length (reads (take threads runs.now)) }
{
    let later = runs_from(runs, threads);
    let mut count = all;
    for run in later {
        count -= count_reads(run.events());
    }
    count
}

/// The reads of all threads, thread by thread, in the room of others, where those of so many of the first threads stand there already.
fn reads(
    runs: &[Run],
    room: Vec<Event>,
    threads: usize,
    known: usize,
) -> Result<Vec<Event>, AllocError>
    requires threads { threads ≤ length runs.now }
    requires known { take known room.items ≡ reads (take threads runs.now) }
    ensures { IfOk result (λ v. v.items ≡ reads runs.now) }
{
    let later = runs_from(runs, threads);
    let mut reads = room;
    reads.truncate(known);
    for run in later {
        push_reads(&mut reads, run.events())?;
    }
    Ok(reads)
}

/// How many ways there are for the reads to read, whatever the values, where these are the later writes of each location.
fn count_ways(reads: &[Event], writes: &[Writes]) -> u64
    requires within { All (λ r. r.loc < length writes.now) reads.now }
    requires most { product_by (sources_among writes.now) reads.now ≤ MOST_CANDIDATES }
    ensures { result ≡ product_by (sources_among writes.now) reads.now }
{
    let mut product = 1;
    for read in reads {
        product *= writes[read.loc].list().len() as u64 + 1;
    }
    product
}

/// The value that a write writes.
pub fn write_value(init: &[u32], runs: &[Run], write: EventId) -> u32
    ensures { result ≡ write_value init.now runs.now write }
{
    match write {
        EventId::Initial(location) => init.get(location).copied().unwrap_or(0),
        EventId::Own(thread, place) => match runs.get(thread) {
            Some(run) => match run.events().get(place) {
                Some(event) => event.value,
                None => 0,
            },
            None => 0,
        },
    }
}

/// How many orders there are of the writes of all locations, where these are the later ones of each.
fn count_orders(writes: &[Writes]) -> u64
    requires { product_by orders_among writes.now ≤ MOST_CANDIDATES }
    ensures { result ≡ product_by orders_among writes.now }
{
    let mut product = 1;
    for later in writes {
        product *= later.orders();
    }
    product
}

/// Makes a page that of its runs, but for its depths.
fn fill_plain(alloc: Global, page: &mut Page, locations: usize) -> Result<(), AllocError>
    requires within { AreWithin locations page.old.runs.items }
    requires most { block locations page.old.runs.items ≤ MOST_CANDIDATES }
    requires depths { page.old.depths.items ≡ [] }
    ensures page { OnOk result (IsPage locations page.new) }
    ensures runs { (page.new.runs ≡ page.old.runs) × (page.new.places ≡ page.old.places) }
{
    let reads = reads(&page.runs, replace(&mut page.reads, Vec::new(alloc)), 0, 0)?;
    let writes = all_writes(
        alloc,
        &page.runs,
        locations,
        replace(&mut page.writes, Vec::new(alloc)),
    )?;
    let ways = count_ways(&reads, &writes);
    let orders = count_orders(&writes);
    page.reads = reads;
    page.writes = writes;
    page.ways = ways;
    page.orders = orders;
    Ok(())
}

/// Makes a page that of its runs, but for what its reads fit.
fn fill_page(alloc: Global, page: &mut Page, locations: usize) -> Result<(), AllocError>
    requires within { AreWithin locations page.old.runs.items }
    requires most { block locations page.old.runs.items ≤ MOST_CANDIDATES }
    ensures page { OnOk result (IsPage locations page.new) }
    ensures runs { (page.new.runs ≡ page.old.runs) × (page.new.places ≡ page.old.places) }
    ensures depths { OnOk result (page.new.depths.items ≡ depths_of locations page.old.runs.items) }
{
    let room = replace(&mut page.depths, Vec::new(alloc));
    fill_plain(alloc, page, locations)?;
    page.depths = list_depths(page, locations, room)?;
    Ok(())
}

/// Makes a page that of its runs, of which it has nothing.
fn fill_anew(alloc: Global, init: &[u32], page: &mut Page) -> Result<(), AllocError>
    requires within { AreWithin (length init.now) page.old.runs.items }
    requires most { block (length init.now) page.old.runs.items ≤ MOST_CANDIDATES }
    ensures page { OnOk result (IsPage (length init.now) page.new) }
    ensures fits { OnOk result (HasSuitable init.now page.new) }
    ensures runs { (page.new.runs ≡ page.old.runs) × (page.new.places ≡ page.old.places) }
    ensures depths { OnOk result (page.new.depths.items ≡ depths_of (length init.now) page.old.runs.items) }
{
    fill_page(alloc, page, init.len())?;
    let room = replace(&mut page.suitable, Vec::new(alloc));
    page.suitable = all_suitable(init, page, 0, room)?;
    Ok(())
}

/// So many if all runs write the same, else none.
fn if_calm(kept: Kept, count: usize) -> usize
    ensures { (result ≡ 0) ⊎ ((kept.calm ≡ true) × (result ≡ count)) }
{
    if kept.calm {
        return count;
    }
    0
}

/// Makes a page that of its runs, of which it has all but the reads behind those of the first threads and what the reads fit.
fn fill_again(alloc: Global, init: &[u32], page: &mut Page, kept: Kept) -> Result<(), AllocError>
    requires within { AreWithin (length init.now) page.old.runs.items }
    requires most { block (length init.now) page.old.runs.items ≤ MOST_CANDIDATES }
    requires has { IsOfRuns (length init.now) page.old.runs.items page.old }
    requires was { WasOf init.now kept page.old }
    ensures page { OnOk result (IsPage (length init.now) page.new) }
    ensures fits { OnOk result (HasSuitable init.now page.new) }
    ensures runs { (page.new.runs ≡ page.old.runs) × (page.new.places ≡ page.old.places) }
    ensures depths { OnOk result (page.new.depths.items ≡ depths_of (length init.now) page.old.runs.items) }
{
    let before = reads_before(&page.runs, kept.same, page.reads.len());
    let stood = replace(&mut page.reads, Vec::new(alloc));
    page.reads = reads(&page.runs, stood, kept.same, before)?;
    let room = replace(&mut page.suitable, Vec::new(alloc));
    page.suitable = all_suitable(init, page, if_calm(kept, before), room)?;
    Ok(())
}

/// Makes a page that of its runs, of which it may have all but the reads and what these fit.
pub(crate) fn open_page(
    alloc: Global,
    init: &[u32],
    page: &mut Page,
    kept: Option<Kept>,
) -> Result<(), AllocError>
    requires within { AreWithin (length init.now) page.old.runs.items }
    requires most { block (length init.now) page.old.runs.items ≤ MOST_CANDIDATES }
    requires kept { IfSome kept (λ k. IsOfRuns (length init.now) page.old.runs.items page.old × WasOf init.now k page.old) }
    ensures page { OnOk result (IsPage (length init.now) page.new) }
    ensures fits { OnOk result (HasSuitable init.now page.new) }
    ensures runs { (page.new.runs ≡ page.old.runs) × (page.new.places ≡ page.old.places) }
    ensures depths { OnOk result (page.new.depths.items ≡ depths_of (length init.now) page.old.runs.items) }
{
    match kept {
        Some(kept) => fill_again(alloc, init, page, kept),
        None => fill_anew(alloc, init, page),
    }
}

/// The candidate of the page's runs with this number.
pub(crate) fn assemble(
    alloc: Global,
    init: &[u32],
    page: &Page,
    number: u64,
) -> Result<Graph, AllocError>
    requires page { IsPage (length init.now) page.now }
    requires number { number < block (length init.now) page.now.runs.items }
    ensures { IfOk result (λ g. g ≡ candidate init.now page.now.runs.items number) }
{
    let values = Vec::from_slice(alloc, init)?;
    let rf = read_from(alloc, page, number / page.orders)?;
    let runs = copy_runs(alloc, &page.runs)?;
    let room = Vec::new(alloc);
    let co = coherence(alloc, page, init.len(), number % page.orders, room)?;
    Ok(Graph::new(values, runs, rf, co))
}

/// Whether both lists have the same at a thread's place.
fn have_same(places: &[usize], others: &[usize], thread: usize) -> bool
    ensures { result ≡ true → (thread < length places.now) × (thread < length others.now) × (slice_index_or places.now thread 0 ≡ slice_index_or others.now thread 0) }
{
    if thread >= places.len() || thread >= others.len() {
        return false;
    }
    places[thread] == others[thread]
}

/// Whether it is asked and the events of both runs do the same.
fn are_like(asked: bool, run: &Run, other: &Run) -> bool
    ensures { result ≡ true → map outline run.now.events ≡ map outline other.now.events }
{
    asked && are_alike(run.events(), other.events())
}

/// Whether it is asked and the others are as many or more.
fn may_be_like(asked: bool, runs: &[Run], others: &[Run]) -> bool
    ensures { result ≡ true → (asked ≡ true) × (length runs.now ≤ length others.now) }
{
    asked && runs.len() <= others.len()
}

/// Puts a run of a page at its place of a list, where it stands already if these places have the page's, and says, where it is asked, whether
/// a run stands there whose events do the same. All others stay as they are.
fn put_run(
    runs: &mut Vec<Run>,
    places: &[usize],
    page: &Page,
    thread: usize,
    asked: bool,
) -> Result<bool, AllocError>
    requires thread { thread < length page.now.runs.items }
    requires room { thread ≤ length runs.old.items }
    requires there { thread < length places.now → thread < length page.now.places.items → slice_index_or places.now thread 0 ≡ slice_index_or page.now.places.items thread 0 → (thread < length runs.old.items) × (slice_index_or runs.old.items thread empty_run ≡ slice_index_or page.now.runs.items thread empty_run) }
    ensures put { OnOk result ((take (thread + 1) runs.new.items ≡ take thread runs.old.items ++ slice_index_or page.now.runs.items thread empty_run ∷ []) × (thread < length runs.new.items)) }
    ensures behind { OnOk result (drop (thread + 1) runs.new.items ≡ drop (thread + 1) runs.old.items) }
    ensures alike { IfOk result (λ alike. alike ≡ true → outlines runs.new.items ≡ outlines runs.old.items) }
{
    if have_same(places, &page.places, thread) {
        return Ok(true);
    }
    let run = &page.runs[thread];
    if thread >= runs.len() {
        runs.push(run.copy()?)?;
        return Ok(false);
    }
    let alike = are_like(asked, &runs[thread], run);
    runs[thread].become_copy(run)?;
    Ok(alike)
}

/// Runs, and whether they are known to do what the runs do that were there before.
#[derive(Drop)]
struct Again {
    runs: Vec<Run>,
    alike: bool,
}

/// The runs of a page, in a vector that may have some of them already. The places are those of its runs, and become the page's. It may be asked
/// whether the events of all do what those did that were there.
fn runs_again(
    mut runs: Vec<Run>,
    places: &mut Vec<usize>,
    page: &Page,
    asked: bool,
) -> Result<Again, AllocError>
    requires placed { (t : List (List ThreadRun)) × ArePlaced t runs.items places.old.items × ArePlaced t page.now.runs.items page.now.places.items }
    ensures runs { IfOk result (λ a. a.runs.items ≡ page.now.runs.items) }
    ensures alike { IfOk result (λ a. a.alike ≡ true → (asked ≡ true) × (outlines runs.items ≡ outlines page.now.runs.items)) }
    ensures places { OnOk result (places.new.items ≡ page.now.places.items) }
{
    let mut alike = may_be_like(asked, &runs, &page.runs);
    for thread in 0..page.runs.len() {
        alike = put_run(&mut runs, places, page, thread, alike)? && alike;
    }
    runs.truncate(page.runs.len());
    places.clear();
    places.extend_from_slice(&page.places)?;
    Ok(Again { runs, alike })
}

/// These values, in a vector that has had others.
fn values_again(mut values: Vec<u32>, wanted: &[u32]) -> Result<Vec<u32>, AllocError>
    ensures { IfOk result (λ v. v.items ≡ wanted.now) }
{
    values.clear();
    values.extend_from_slice(wanted)?;
    Ok(values)
}

/// The number that is known, where runs do what those did with which it is known.
fn if_alike(known: Option<u64>, alike: bool) -> Option<u64>
    ensures { IfSome result (λ k. (known ≡ Some k) × (alike ≡ true)) }
{
    if alike {
        return known;
    }
    None
}

/// What the reads of the page's candidate with this number read from, in the room of what those of another read from, whose number may be known.
fn sources_again(
    page: &Page,
    rf: Vec<EventId>,
    known: Option<u64>,
    number: u64,
) -> Result<Vec<EventId>, AllocError>
    requires page { (n : ℕ) × IsPage n page.now × (number < block n page.now.runs.items) }
    requires known { IfSome known (λ k. rf.items ≡ rf_at page.now.runs.items (k / page.now.orders)) }
    ensures { IfOk result (λ v. v.items ≡ rf_at page.now.runs.items (number / page.now.orders)) }
{
    let reading = number / page.orders;
    match known {
        Some(other) => Ok(turn_sources(page, rf, other / page.orders, reading)),
        None => read_into(page, rf, reading),
    }
}

/// The orders of the page's candidate with this number, in the room of those of another, whose number may be known.
fn orders_again(
    alloc: Global,
    page: &Page,
    locations: usize,
    room: Vec<Coherence>,
    known: Option<u64>,
    number: u64,
) -> Result<Vec<Coherence>, AllocError>
    requires page { IsPage locations page.now }
    requires known { IfSome known (λ k. room.items ≡ orders_by locations page.now.runs.items (k % page.now.orders)) }
    ensures { IfOk result (λ v. v.items ≡ orders_by locations page.now.runs.items (number % page.now.orders)) }
{
    let wanted = number % page.orders;
    match known {
        Some(other) => Ok(turn_orders(alloc, page, room, locations, other % page.orders, wanted)),
        None => coherence(alloc, page, locations, wanted, room),
    }
}

/// The parts of the page's candidate with this number, in the room of those of another candidate of some runs, whose number may be known.
fn refill(
    alloc: Global,
    init: &[u32],
    page: &Page,
    number: u64,
    parts: GraphParts,
    places: &mut Vec<usize>,
    known: Option<u64>,
) -> Result<GraphParts, AllocError>
    requires page { IsPage (length init.now) page.now }
    requires placed { (t : List (List ThreadRun)) × ArePlaced t parts.runs.items places.old.items × ArePlaced t page.now.runs.items page.now.places.items }
    requires number { number < block (length init.now) page.now.runs.items }
    requires known { IfSome known (HasNumber (length init.now) parts) }
    ensures init { IfOk result (λ p. p.init.items ≡ init.now) }
    ensures runs { IfOk result (λ p. p.runs.items ≡ page.now.runs.items) }
    ensures rf { IfOk result (λ p. p.rf.items ≡ rf_at page.now.runs.items (number / page.now.orders)) }
    ensures co { IfOk result (λ p. p.co.items ≡ orders_by (length init.now) page.now.runs.items (number % page.now.orders)) }
    ensures places { OnOk result (places.new.items ≡ page.now.places.items) }
{
    let values = values_again(parts.init, init)?;
    let again = runs_again(parts.runs, places, page, known.is_some())?;
    let known = if_alike(known, again.alike);
    let rf = sources_again(page, parts.rf, known, number)?;
    let co = orders_again(alloc, page, init.len(), parts.co, known, number)?;
    Ok(GraphParts {
        init: values,
        runs: again.runs,
        rf,
        co,
    })
}

/// The candidate of the page's runs with this number, in the room of the parts of another candidate of some runs, whose number may be known. The
/// places are those of its runs.
pub(crate) fn assemble_in(
    alloc: Global,
    init: &[u32],
    page: &Page,
    number: u64,
    parts: GraphParts,
    places: &mut Vec<usize>,
    known: Option<u64>,
) -> Result<Graph, AllocError>
    requires page { IsPage (length init.now) page.now }
    requires placed { (t : List (List ThreadRun)) × ArePlaced t parts.runs.items places.old.items × ArePlaced t page.now.runs.items page.now.places.items }
    requires number { number < block (length init.now) page.now.runs.items }
    requires known { IfSome known (HasNumber (length init.now) parts) }
    ensures graph { IfOk result (λ g. g ≡ candidate init.now page.now.runs.items number) }
    ensures places { OnOk result (places.new.items ≡ page.now.places.items) }
{
    let filled = refill(alloc, init, page, number, parts, places, known)?;
    Ok(Graph::new(filled.init, filled.runs, filled.rf, filled.co))
}

/// The candidate of the page's runs with another number, made from the one with this number.
pub(crate) fn turned(alloc: Global, page: &Page, graph: Graph, from: u64, to: u64) -> Graph
    requires page { IsPage (length graph.init) page.now }
    requires number { to < block (length graph.init) page.now.runs.items }
    requires graph { graph ≡ candidate graph.init page.now.runs.items from }
    ensures { result ≡ candidate graph.init page.now.runs.items to }
{
    let parts = graph.into_parts();
    let rf = turn_sources(page, parts.rf, from / page.orders, to / page.orders);
    let co = turn_orders(
        alloc,
        page,
        parts.co,
        parts.init.len(),
        from % page.orders,
        to % page.orders,
    );
    Graph::new(parts.init, parts.runs, rf, co)
}

/// Parts with nothing in them.
pub(crate) fn no_parts(alloc: Global) -> GraphParts {
    GraphParts {
        init: Vec::new(alloc),
        runs: Vec::new(alloc),
        rf: Vec::new(alloc),
        co: Vec::new(alloc),
    }
}

/// An execution of nothing. It takes no memory.
pub fn nothing(alloc: Global) -> Graph
    ensures { result ≡ no_execution }
{
    Graph::new(
        Vec::new(alloc),
        Vec::new(alloc),
        Vec::new(alloc),
        Vec::new(alloc),
    )
}
