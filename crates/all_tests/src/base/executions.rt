//! Executions made by hand, and the sets and relations that they have.

ghost use Rattle.std.specs.Prelude.{◌≡◌, IfOk};
ghost use Rattle.events.specs.Structures.{sourced_of};

use crate::graphs::{excerpt, graph};
use crate::names::name;
use crate::rows::{again, all_hold, expect, meant};
use cat_model::Named;
use events::EventId::{Initial, Own};
use events::{Basis, Coherence, Cut, EventId, Graph, GraphView, Order, Part, SourcedStructure};
use relations::{Rel, Set};
use std::alloc::{AllocError, Global};

/// SB: each thread writes 1 to its own location and reads the other's, here from its initial write.
///
/// Numbers: 0 and 1 the initial writes, 2 and 3 the write and the read of P0, 4 and 5 those of P1.
const WEAK: &str = "init 0 0
run 0 | W 0 1 | R 1 0
run 0 | W 1 1 | R 0 0
rf i1 i0
co i0 0.0
co i1 1.0";

const SEEN_OF_WEAK: &str = "count 6
W 0 1 2 4
R 3 5
F
M 0 1 2 3 4 5
IW 0 1
A 2 3 4 5
RLX 2 3 4 5
NA
po 2-3 4-5
rf 0-5 1-3
co 0-2 1-4
fr 3-4 5-2
rfe 0-5 1-3
coe 0-2 1-4
fre 3-4 5-2
rfi
rmw
po-loc
int 0-0 0-1 1-0 1-1 2-2 2-3 3-2 3-3 4-4 4-5 5-4 5-5
loc 0-0 0-2 0-5 1-1 1-3 1-4 2-0 2-2 2-5 3-1 3-3 3-4 4-1 4-3 4-4 5-0 5-2 5-5
id 0-0 1-1 2-2 3-3 4-4 5-5";

/// SB, where each thread reads the other's write.
const STRONG: &str = "init 0 0
run 1 | W 0 1 | R 1 1
run 1 | W 1 1 | R 0 1
rf 1.0 0.0
co i0 0.0
co i1 1.0";

const SEEN_OF_STRONG: &str = "count 6
rf 2-5 4-3
rfe 2-5 4-3
fr";

/// The runs of SB, with sources of other values: a graph asks nothing of values.
const CROSSED: &str = "init 0 0
run 1 | W 0 1 | R 1 1
run 1 | W 1 1 | R 0 1
rf i1 i0
co i0 0.0
co i1 1.0";

/// P0 exchanges x and has a fence; P1 writes and reads x plainly, and has a fence. Numbers: 0 the initial write,
/// 1 to 3 of P0, 4 to 6 of P1.
const EXCHANGE: &str = "init 0
run 0 | xR 0 0 acq_rel | xW 0 1 acq_rel | F 0 0 sc
run 2 | W 0 2 na | R 0 2 na | F 0 0 acq
rf i0 1.0
co i0 0.1 1.0";

const SEEN_OF_EXCHANGE: &str = "count 7
RMW 1 2
A 1 2
ACQ_REL 1 2
F 3 6
SC 3
ACQ 6
REL
NA 4 5
M 0 1 2 4 5
rmw 1-2
po 1-2 1-3 2-3 4-5 4-6 5-6
po-loc 1-2 4-5
rfi 4-5
rfe 0-1
coi
fri 1-2
fre 1-4";

/// P1 reads x, writes y with the value, and writes y in a branch that tests it. Numbers: 0 and 1 the initial writes,
/// 2 to 4 of P1; P0 is empty.
const DEPENDENT: &str = "init 0 0
run
run 0 | R 0 0 rlx | W 1 0 rlx data0 | W 1 1 rlx ctrl0
rf i0
co i0
co i1 1.2 1.1";

const SEEN_OF_DEPENDENT: &str = "count 5
data 2-3
ctrl 2-4
addr
co 1-3 1-4 4-3
coi 4-3
coe 1-3 1-4";

/// What is to be seen of the exchange where the source of P1's read alone is known, and is the write of P0's exchange.
const SEEN_OF_EXCERPT: &str = "count 7
RMW 1 2
rmw 1-2
po 1-2 1-3 2-3 4-5 4-6 5-6
rf 2-5
rfi
rfe 2-5
co 0-2 0-4 2-4
coe 0-2 0-4 2-4
fr 5-4
fri 5-4
fre";

/// The executions, and what is to be seen of each: how many events there are, and the members of some sets and relations.
const EXECUTIONS: &[(&str, (&str, &str))] = &[
    ("weak", (WEAK, SEEN_OF_WEAK)),
    ("strong", (STRONG, SEEN_OF_STRONG)),
    ("crossed", (CROSSED, SEEN_OF_WEAK)),
    ("exchange", (EXCHANGE, SEEN_OF_EXCHANGE)),
    ("excerpt", (EXCHANGE, SEEN_OF_EXCERPT)),
    ("dependent", (DEPENDENT, SEEN_OF_DEPENDENT)),
];

const BASES: &[(&str, Basis)] = &[
    ("runs", Basis::Runs),
    ("sources", Basis::Sources),
    ("orders", Basis::Orders),
];

/// An execution, and how the view comes to be: it is that of the graph, or of the graph taken apart and put together again, or over a
/// structure that was of another execution and tells that this is what may be another.
const VIEWS: &str = "both read the initial writes ==> weak made
taken apart and put together ==> weak again
each reads the other ==> strong made
an exchange and fences ==> exchange made
dependencies ==> dependent made
of one source and an order ==> excerpt partly
a structure follows an execution ==> strong runs exchange
# The runs of the two differ in what they read alone: in their values, which a structure leaves out, and so in their maps.
a structure stays while other values are read ==> strong sources weak
# The two differ in their values alone.
a structure leaves values out ==> crossed orders weak
a structure follows a map ==> strong sources crossed
a structure stays ==> strong orders strong";

fn push_set(text: &mut String, set: &Set) -> Result<(), AllocError> {
    for event in 0..set.count() {
        if set.contains(event) {
            write!(text, " {event}")?;
        }
    }
    Ok(())
}

fn push_rel(text: &mut String, rel: &Rel) -> Result<(), AllocError> {
    for from in 0..rel.count() {
        for to in 0..rel.count() {
            if rel.contains(from, to) {
                write!(text, " {from}-{to}")?;
            }
        }
    }
    Ok(())
}

/// Adds the members of what a word stands for in models, or how many events there are where it stands for nothing.
fn push_members(
    text: &mut String,
    view: &GraphView,
    named: Option<Named>,
) -> Result<(), AllocError> {
    match named {
        Some(Named::Set(set)) => push_set(text, &view.set(set)),
        Some(Named::Rel(rel)) => push_rel(text, &view.rel(rel)),
        None => write!(text, " {}", view.count()),
    }
}

/// What is seen of a word in the view.
fn seen_of(alloc: Global, view: &GraphView, word: &str) -> Result<String, AllocError> {
    let name = name(alloc, word.as_bytes())?;
    let mut text = String::from_str(alloc, word)?;
    push_members(&mut text, view, Named::of(&name)).and(Ok(text))
}

/// Is each line seen in the view: the name of a set or a relation with just its members, or how many events there are?
fn is_seen(alloc: Global, view: &GraphView, seen: &str) -> Result<bool, AllocError> {
    for line in seen.lines() {
        let (word, _) = line.split_once(' ').unwrap_or((line, ""));
        if again!(_, seen_of(alloc, view, word))?.as_str() != line {
            return Ok(false);
        }
    }
    Ok(true)
}

/// Is that to be seen in an execution's view?
fn is_shown(alloc: Global, execution: &Graph, seen: &str) -> Result<bool, AllocError> {
    let view = again!(_, GraphView::of(alloc, execution))?;
    is_seen(alloc, &view, seen)
}

/// The execution, taken apart and put together again.
fn made_again(execution: Graph) -> Graph {
    let parts = execution.into_parts();
    Graph::new(parts.init, parts.runs, parts.rf, parts.co)
}

/// Does a structure that is of an execution tell that the map may be another, as it follows it without its reads, and then whole again?
fn follows_on(
    alloc: Global,
    sourced: &mut SourcedStructure,
    execution: &Graph,
) -> Result<bool, AllocError>
    requires { sourced.old ≡ sourced_of execution.now }
    ensures { IfOk result (λ _. sourced.new ≡ sourced_of execution.now) }
{
    let without = Cut {
        reads: 0,
        locations: 0,
        unplaced: &[],
    };
    let cut = sourced.follow_part_on(alloc, execution, &Part::Cut(without))?;
    let whole = sourced.follow_on(alloc, execution)?;
    let same = sourced.follow_on(alloc, execution)?;
    Ok(cut == Basis::Sources && whole == Basis::Sources && same == Basis::Orders)
}

/// Does a structure of one execution tell, as it follows another, that this is what may be another than before, and is that to
/// be seen in the view over it?
fn is_followed(
    alloc: Global,
    from: &Graph,
    execution: &Graph,
    told: &str,
    seen: &str,
) -> Result<bool, AllocError> {
    let mut sourced = SourcedStructure::of(alloc, from)?;
    let basis = sourced.follow(alloc, execution)?;
    let goes_on = follows_on(alloc, &mut sourced, execution)?;
    let mut room = Rel::empty(0);
    let view = GraphView::over(&sourced, execution, &mut room);
    Ok(meant(BASES, told) == Some(basis) && goes_on && is_seen(alloc, &view, seen)?)
}

/// Has this name an execution whose structure follows another so?
fn follows(
    alloc: Global,
    from: &str,
    execution: &Graph,
    told: &str,
    seen: &str,
) -> Result<bool, AllocError> {
    match meant(EXECUTIONS, from) {
        Some((text, _)) => {
            let from = graph(alloc, text, Order::Rlx)?;
            is_followed(alloc, &from, execution, told, seen)
        }
        None => Ok(false),
    }
}

/// Is that to be seen where of an execution of two reads the source of the second alone is known, and is the exchange of P0, and the order of x?
fn is_seen_of_excerpt(alloc: Global, execution: &Graph, seen: &str) -> Result<bool, AllocError> {
    let sources = [Initial(64), Own(0, 1)];
    let Some(part) = excerpt(execution, &sources, 0) else {
        return Ok(false);
    };
    let mut sourced = SourcedStructure::of(alloc, execution)?;
    let basis = sourced.follow_part(alloc, execution, &part)?;
    let mut room = Rel::empty(0);
    let view = GraphView::over_part(&sourced, execution, part, &mut room);
    Ok(basis == Basis::Sources && is_seen(alloc, &view, seen)?)
}

/// Is that to be seen of an execution in a view that comes to be this way?
fn is_seen_so(alloc: Global, execution: Graph, way: &str, seen: &str) -> Result<bool, AllocError> {
    match way.split_once(' ') {
        Some((told, from)) => follows(alloc, from, &execution, told, seen),
        None => match way {
            "again" => is_shown(alloc, &made_again(execution), seen),
            "partly" => is_seen_of_excerpt(alloc, &execution, seen),
            _ => is_shown(alloc, &execution, seen),
        },
    }
}

/// Is what is to be seen of an execution seen in its view?
pub fn is_as_seen(alloc: Global, _name: &str, case: &str) -> Result<bool, AllocError> {
    let (execution, way) = case.split_once(' ').unwrap_or((case, ""));
    match meant(EXECUTIONS, execution) {
        Some((text, seen)) => {
            let execution = again!(_, graph(alloc, text, Order::Rlx))?;
            is_seen_so(alloc, execution, way, seen)
        }
        None => Ok(false),
    }
}

/// Does an order give back the writes that it was made of?
fn gives_back(alloc: Global, writes: &[EventId]) -> Result<bool, AllocError> {
    let order = Coherence::new(Vec::from_slice(alloc, writes)?);
    Ok(order.into_writes().as_slice() == writes)
}

/// What is to be seen of a graph, and of a structure that was of one execution and then follows another.
#[test]
fn views(rt: HostRuntime) {
    all_hold(&rt, rt.alloc(), "views", VIEWS, is_as_seen);
    let is_given_back = gives_back(rt.alloc(), &[Initial(1), Own(1, 0)]);
    expect(&rt, "an order", is_given_back == Ok(true));
}
