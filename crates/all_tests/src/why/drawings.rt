//! Drawings as text and as files for Graphviz, and where the writer fails.
//!
//! The expected bytes are written by hand, after the definitions of `drawing`.

mod expected;

use crate::cases::sink;
use crate::graphs::{STORE_BUFFERING, graph};
use crate::names::name;
use crate::rows::{again, expect};
use drawing::{Broken, Chain, DrawFault, Drawing, Step, dot, text, write_dot, write_text};
use events::{Graph, Order};
use expected::*;
use std::alloc::{AllocError, Global};
use std::process::Abort;
use wb_text::Name;

/// What is told of an execution.
#[derive(Drop)]
struct Told {
    name: Name,
    locations: Vec<Name>,
    model: Option<&'static [u8]>,
    check: Option<&'static [u8]>,
    chain: Option<Chain>,
}

/// An execution, what is told of it, and how both are drawn.
struct Case {
    name: &'static str,
    execution: &'static str,
    told: &'static str,
    text: &'static [u8],
    dot: &'static [u8],
}

/// The cycle that breaks store buffering under sc: from the write of x, by program order and from-reads in turn.
const CYCLE: &str = "SB
x y
sc
acyclic sc
2 po>3 fr>4 po>5 fr>2";

/// A lone event as evidence, and names that Graphviz would read otherwise, one of 64 bytes.
const ODD: &str = "\"\\N&lt;\"
lllllllllllllllllllllllllllllllllllllllllllllllllllllllllllllll\\ \\\"l
C:\\new\\sc.cat
irreflexive \"r\"
2 a\\n,\"b\">2";

/// A test of one location, of which no more is told.
const PLAIN: &str = "T
x";

/// A check that is denied, and so has no evidence.
const DENIED: &str = "T
x
m
~empty rf";

/// No read: a thread that has no event, and one with a plain write, a fence and a release write, of which the second comes first in the
/// order of x.
const ALONE: &str = "init 7
run
run | W 0 1 na | F 0 0 acq_rel | W 0 2 rel
co i0 1.2 1.0";

/// Two exchanges of x, the second of what the first wrote, and a read of what the second wrote.
const EXCHANGED: &str = "init 0
run | xR 0 0 acq | xW 0 1 acq | R 0 2 sc
run | xR 0 1 rlx | xW 0 2 rlx
rf i0 1.1 0.1
co i0 0.1 1.1";

const CASES: [Case; 4] = [
    Case {
        name: "store buffering under sc",
        execution: STORE_BUFFERING,
        told: CYCLE,
        text: STORE_BUFFERING_TEXT,
        dot: STORE_BUFFERING_DOT,
    },
    Case {
        name: "names in quotes",
        execution: STORE_BUFFERING,
        told: ODD,
        text: ODD_TEXT,
        dot: ODD_DOT,
    },
    Case {
        name: "an execution without reads",
        execution: ALONE,
        told: PLAIN,
        text: ALONE_TEXT,
        dot: ALONE_DOT,
    },
    Case {
        name: "exchanges under a denied check",
        execution: EXCHANGED,
        told: DENIED,
        text: EXCHANGED_TEXT,
        dot: EXCHANGED_DOT,
    },
];

fn names(alloc: Global, words: &str, between: char) -> Result<Vec<Name>, AllocError> {
    let mut names = Vec::new(alloc);
    for word in words.split(between) {
        names.push(name(alloc, word.as_bytes())?)?;
    }
    Ok(names)
}

fn number(word: &str) -> Result<usize, AllocError> {
    match word.parse::<usize>() {
        Ok(number) => Ok(number),
        Err(_) => Err(AllocError),
    }
}

/// A step of a chain: its labels, and the number of the event that it leads to.
fn step(alloc: Global, word: &str) -> Result<Step, AllocError> {
    let (labels, to) = word.split_once('>').unwrap_or((word, ""));
    let to = number(to)?;
    let labels = names(alloc, labels, ',')?;
    Ok(Step { to, labels })
}

fn chain(alloc: Global, words: &str) -> Result<Chain, AllocError> {
    let (first, words) = words.split_once(' ').unwrap_or((words, ""));
    let first = number(first)?;
    let mut steps = Vec::new(alloc);
    for word in words.split(' ') {
        steps.push(step(alloc, word)?)?;
    }
    Ok(Chain { first, steps })
}

fn chain_of(alloc: Global, words: Option<&str>) -> Result<Option<Chain>, AllocError> {
    match words {
        Some(words) => Ok(Some(chain(alloc, words)?)),
        None => Ok(None),
    }
}

fn bytes_of(line: Option<&'static str>) -> Option<&'static [u8]> {
    match line {
        Some(line) => Some(line.as_bytes()),
        None => None,
    }
}

/// What the lines of a text tell: the names of the test and of its locations, the model, the check that is broken, and its chain.
fn told_of(alloc: Global, lines: &'static str) -> Result<Told, AllocError> {
    let mut lines = lines.lines();
    let test = lines.next().unwrap_or("");
    let locations = lines.next().unwrap_or("");
    let model = bytes_of(lines.next());
    let check = bytes_of(lines.next());
    Ok(Told {
        name: name(alloc, test.as_bytes())?,
        locations: names(alloc, locations, ' ')?,
        model,
        check,
        chain: chain_of(alloc, lines.next())?,
    })
}

fn broken(told: &Told) -> Option<Broken<'_>> {
    match told.check {
        Some(check) => Some(Broken {
            check,
            chain: told.chain.as_ref(),
        }),
        None => None,
    }
}

fn drawing<'a>(told: &'a Told, execution: &'a Graph) -> Drawing<'a> {
    Drawing {
        name: &told.name,
        locations: &told.locations,
        graph: execution,
        model: told.model,
        broken: broken(told),
    }
}

/// Whether both drawings are those of a case, though a request for memory be refused.
fn are_drawn(alloc: Global, drawing: &Drawing<'_>, case: &Case) -> Result<bool, AllocError> {
    let as_text = again!(_, text(alloc, drawing))?;
    let as_dot = again!(_, dot(alloc, drawing))?;
    Ok(as_text.as_slice() == case.text && as_dot.as_slice() == case.dot)
}

/// Whether both drawings of a case, of which this is told, are as expected.
fn are_drawn_of(alloc: Global, told: &Told, case: &Case) -> Result<bool, AllocError> {
    let execution = again!(_, graph(alloc, case.execution, Order::Rlx))?;
    are_drawn(alloc, &drawing(told, &execution), case)
}

/// Whether both drawings of a case are as expected.
fn draws(alloc: Global, case: &Case) -> Result<bool, AllocError> {
    let told = again!(_, told_of(alloc, case.told))?;
    are_drawn_of(alloc, &told, case)
}

/// Whether the front part of the bytes is what a writer with so much room is left with, and its failure is told unless that is all of them.
fn has_a_front_part(
    alloc: Global,
    drawing: &Drawing<'_>,
    as_dot: bool,
    bytes: &[u8],
    room: usize,
) -> bool {
    match sink(alloc, room) {
        Ok(mut writer) => {
            let outcome = if as_dot {
                write_dot(alloc, drawing, &mut writer)
            } else {
                write_text(alloc, drawing, &mut writer)
            };
            ends_so(&outcome, writer.bytes(), bytes, room) && bytes.starts_with(writer.bytes())
        }
        Err(AllocError) => false,
    }
}

/// Whether all was written, or the room was too little for that and is full.
fn ends_so(outcome: &Result<(), DrawFault>, written: &[u8], bytes: &[u8], room: usize) -> bool {
    match outcome {
        Ok(()) => room >= bytes.len(),
        Err(DrawFault::Write) => room < bytes.len() && written.len() == room,
        Err(DrawFault::NoMemory) => false,
    }
}

/// Fails with the first room, up to one that is enough, with which that doesn't hold.
fn expect_front_parts(
    rt: &impl Abort,
    alloc: Global,
    drawing: &Drawing<'_>,
    as_dot: bool,
    bytes: &[u8],
) {
    for room in 0..=bytes.len() {
        let has_a_front_part = has_a_front_part(alloc, drawing, as_dot, bytes, room);
        assert!(rt;
            has_a_front_part,
            "a writer with too little room, at {room}"
        );
    }
}

/// Both drawings of a graph without reads, of which this is told, for writers with too little room.
fn expect_rooms(rt: &impl Abort, alloc: Global, told: &Told) {
    match &graph(alloc, ALONE, Order::Rlx) {
        Ok(execution) => {
            let drawing = drawing(told, execution);
            expect_front_parts(rt, alloc, &drawing, false, ALONE_TEXT);
            expect_front_parts(rt, alloc, &drawing, true, ALONE_DOT);
        }
        Err(AllocError) => expect(rt, "an execution without reads", false),
    }
}

#[test]
fn drawings(rt: HostRuntime) {
    let alloc = rt.alloc();
    for case in &CASES {
        expect(&rt, case.name, draws(alloc, case).unwrap_or(false));
    }
    match &told_of(alloc, PLAIN) {
        Ok(told) => expect_rooms(&rt, alloc, told),
        Err(AllocError) => expect(&rt, "what is told of an execution", false),
    }
}
