//! Executions made of texts.
//!
//! A line of a text has the initial values (`init 0 0`), a thread (`run 0 | W 0 1 rlx | R 1 0`: the values of its registers at the end,
//! then its events with access, location, value and order), what the reads read from (`rf i1 0.0`: the initial write of location 1,
//! event 0 of thread 0), or an order of writes (`co i0 0.0`). An event without an order has the one that is given beside the text.
//! Behind its order stands what it depends on: `data0` or `ctrl0`.

ghost use Rattle.std.specs.Prelude.{◌≡◌, ◌+◌, ◌≤◌, ◌↔◌, IfSome, IsTrue, All, length, sum_by};
ghost use Rattle.events.specs.Cuts.{IsOfEvents};
ghost use Rattle.events.specs.Executions.{IsNamed, IsGraph};

use crate::rows::{meant, number_of};
use events::{
    Access, Coherence, Event, EventId, Excerpt, Graph, GraphParts, Order, Part, Run, no_places,
};
use relations::Places;
use std::alloc::{AllocError, Global};

const ACCESSES: &[(&str, Access)] = &[
    ("R", Access::Read),
    ("W", Access::Write),
    ("F", Access::Fence),
    ("xR", Access::ExRead),
    ("xW", Access::ExWrite),
];

/// The orders, by their words.
pub const ORDERS: &[(&str, Order)] = &[
    ("na", Order::Na),
    ("rlx", Order::Rlx),
    ("acq", Order::Acq),
    ("rel", Order::Rel),
    ("acq_rel", Order::AcqRel),
    ("sc", Order::Sc),
];

/// The place whose number stands behind a sign, if it does.
fn place_behind(word: &str, sign: &str) -> Places {
    match word.strip_prefix(sign) {
        Some(digits) => Places::just(digits.parse::<usize>().unwrap_or(64)),
        None => no_places(),
    }
}

/// The order that a word names, or this one where there is no word.
fn order_of(word: Option<&str>, order: Order) -> Option<Order> {
    match word {
        Some(word) => meant(ORDERS, word),
        None => Some(order),
    }
}

/// The event that words spell, of this order where they name none.
fn event_of(thread: usize, words: &str, order: Order) -> Option<Event> {
    let mut words = words.split(' ');
    let access = meant(ACCESSES, words.next().unwrap_or(""));
    let loc = number_of(words.next());
    let value = words.next().unwrap_or("").parse::<u32>().ok();
    let order = order_of(words.next(), order);
    let needs = words.next().unwrap_or("");
    match (access, loc, value, order) {
        (Some(access), Some(loc), Some(value), Some(order)) => Some(Event {
            thread,
            access,
            loc,
            value,
            order,
            data_from: place_behind(needs, "data"),
            ctrl_from: place_behind(needs, "ctrl"),
        }),
        _ => None,
    }
}

pub fn push_values(values: &mut Vec<u32>, words: &str) -> Result<(), AllocError> {
    for word in words.split_whitespace() {
        match word.parse::<u32>() {
            Ok(value) => values.push(value)?,
            Err(_) => return Err(AllocError),
        }
    }
    Ok(())
}

/// Adds the events of a thread, with ` | ` between them.
fn push_events(
    events: &mut Vec<Event>,
    thread: usize,
    text: &str,
    order: Order,
) -> Result<(), AllocError> {
    for words in text.split(" | ") {
        match event_of(thread, words, order) {
            Some(event) => events.push(event)?,
            None => return Err(AllocError),
        }
    }
    Ok(())
}

/// Adds the next thread: the values of its registers, and its events.
fn push_run(
    alloc: Global,
    runs: &mut Vec<Run>,
    text: &str,
    order: Order,
) -> Result<(), AllocError> {
    let mut registers = Vec::new(alloc);
    let mut events = Vec::new(alloc);
    match text.split_once("| ") {
        Some((values, lines)) => {
            push_values(&mut registers, values)?;
            push_events(&mut events, runs.len(), lines, order)?;
        }
        None => push_values(&mut registers, text)?,
    }
    runs.push(Run::new(events, registers))?;
    Ok(())
}

/// The event that a word names.
fn event_id(word: &str) -> Option<EventId> {
    match word.split_once('.') {
        Some((thread, place)) => Some(EventId::Own(
            thread.parse::<usize>().ok()?,
            place.parse::<usize>().ok()?,
        )),
        None => Some(EventId::Initial(word.strip_prefix('i')?.parse::<usize>().ok()?)),
    }
}

/// Adds the events that words name.
fn push_ids(ids: &mut Vec<EventId>, words: &str) -> Result<(), AllocError> {
    for word in words.split(' ') {
        match event_id(word) {
            Some(id) => ids.push(id)?,
            None => return Err(AllocError),
        }
    }
    Ok(())
}

fn push_order(alloc: Global, co: &mut Vec<Coherence>, words: &str) -> Result<(), AllocError> {
    let mut writes = Vec::new(alloc);
    push_ids(&mut writes, words)?;
    co.push(Coherence::new(writes))?;
    Ok(())
}

/// Adds what a line tells.
fn push_line(
    alloc: Global,
    parts: &mut GraphParts,
    line: &str,
    order: Order,
) -> Result<(), AllocError> {
    let (head, rest) = line.split_once(' ').unwrap_or((line, ""));
    match head {
        "init" => push_values(&mut parts.init, rest),
        "run" => push_run(alloc, &mut parts.runs, rest, order),
        "rf" => push_ids(&mut parts.rf, rest),
        "co" => push_order(alloc, &mut parts.co, rest),
        _ => Err(AllocError),
    }
}

fn push_lines(
    alloc: Global,
    parts: &mut GraphParts,
    text: &str,
    order: Order,
) -> Result<(), AllocError> {
    for line in text.lines() {
        push_line(alloc, parts, line, order)?;
    }
    Ok(())
}

/// Is there such an event?
fn is_named(init: &[u32], runs: &[Run], event: EventId) -> bool
    ensures { IsTrue result ↔ IsNamed init.now runs.now event }
{
    match event {
        EventId::Initial(location) => location < init.len(),
        EventId::Own(thread, place) => match runs.get(thread) {
            Some(run) => place < run.events().len(),
            None => false,
        },
    }
}

/// Are there all of these events?
#[tactic(auto, using(crate::proofs::Parts::all_more))]
fn are_named(init: &[u32], runs: &[Run], events: &[EventId]) -> bool
    ensures { IsTrue result → All (IsNamed init.now runs.now) events.now }
{
    for event in events {
        if !is_named(init, runs, *event) {
            return false;
        }
    }
    true
}

/// Are there all events of these orders?
#[tactic(auto, using(crate::proofs::Parts::all_more))]
fn have_named(init: &[u32], runs: &[Run], co: &[Coherence]) -> bool
    ensures { IsTrue result → All (All (IsNamed init.now runs.now)) co.now }
{
    for order in co {
        if !are_named(init, runs, order.writes()) {
            return false;
        }
    }
    true
}

/// Are there at most 64 events?
#[tactic(auto, using(crate::proofs::Parts::sum_next))]
fn are_few(init: &[u32], runs: &[Run]) -> bool
    ensures { IsTrue result → length init.now + sum_by (λ run. length run.events) runs.now ≤ 64 }
{
    let mut total = init.len();
    for run in runs {
        if total > 64 || run.events().len() > 64 {
            return false;
        }
        total += run.events().len();
    }
    total <= 64
}

/// Are these the parts of a graph?
fn are_a_graphs(init: &[u32], runs: &[Run], rf: &[EventId], co: &[Coherence]) -> bool
    ensures { IsTrue result → IsGraph (record { init = init.now; runs = runs.now; rf = rf.now; co = co.now }) }
{
    are_few(init, runs) && are_named(init, runs, rf) && have_named(init, runs, co)
}

/// The graph of these parts, which are one's.
fn joined(parts: GraphParts) -> Result<Graph, AllocError> {
    let GraphParts { init, runs, rf, co } = parts;
    if are_a_graphs(&init, &runs, &rf, &co) {
        Ok(Graph::new(init, runs, rf, co))
    } else {
        Err(AllocError)
    }
}

/// The execution that a text spells, whose events are of this order where it names none.
pub fn graph(alloc: Global, text: &str, order: Order) -> Result<Graph, AllocError> {
    let mut parts = GraphParts {
        init: Vec::new(alloc),
        runs: Vec::new(alloc),
        rf: Vec::new(alloc),
        co: Vec::new(alloc),
    };
    push_lines(alloc, &mut parts, text, order)?;
    joined(parts)
}

/// Store buffering, where both reads read the initial writes.
///
/// Events 0 and 1 are the initial writes of x and y, 2 and 3 the write of x and the read of y of P0, 4 and 5 the write of
/// y and the read of x of P1. So po is (2,3) (4,5), rf (1,3) (0,5), co (0,2) (1,4), and fr (3,4) (5,2).
pub const STORE_BUFFERING: &str = "init 0 0
run | W 0 1 | R 1 0
run | W 1 1 | R 0 0
rf i1 i0
co i0 0.0
co i1 1.0";

/// What is known where of an execution only these sources and the order of a location are.
pub fn excerpt<'a>(
    execution: &'a Graph,
    sources: &'a [EventId],
    location: usize,
) -> Option<Part<'a>>
    ensures { IfSome result (IsOfEvents execution.entry.now) }
{
    // They tell that the orders are of events.
    let _ = execution.runs();
    let order = execution.co().get(location)?;
    Some(Part::Excerpt(Excerpt {
        sources,
        order: order.writes(),
    }))
}
