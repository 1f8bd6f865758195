//! What models say of executions that are made by hand.

use crate::cat::loading::is_so;
use crate::cat::opened::{OPENED, Opened};
use crate::cat::texts::RC11;
use crate::graphs::{ORDERS, STORE_BUFFERING, graph};
use crate::rows::{all_hold, meant};
use cat_eval::judge;
use cat_model::Model;
use events::{Graph, GraphView, Order};
use std::alloc::{AllocError, Global};
use wb_text::Name;

/// What is to hold of a name among files.
#[derive(Clone, Copy)]
pub enum Fact<'a> {
    /// `resolve` answers this for it as a root.
    Answer(&'a str),
    /// Its model comes from so many files.
    Files(usize),
    /// Its model allows store buffering of this order, or forbids it, and raises these flags.
    Says(Order, bool, &'a str),
    /// Of a partial message passing of this order it is known, or isn't, that its model forbids all that goes on from it.
    Refutes(Order, bool),
    /// Of two exchanges of which the sources are known that this word names it is known, or isn't, that its model forbids all that goes on from that.
    RefutesExcerpt(&'a str, bool),
    /// Of two writes of each location of this order it is known in these cases that its model allows them wherever the open ones stand, and raises
    /// these flags.
    Opens(Order, Opened, &'a str),
    /// Of its model it is known, or isn't, that it says the same of executions that differ in their coherence orders alone.
    Orderless(bool),
    /// The copy of its model is equal to a second model of it.
    Copied,
    /// It stands for what this text is read as.
    Text(&'a str),
    /// Its file can be taken away, and then not once more.
    Removed,
    /// These are the names that were put, in order, with their versions.
    Put(&'a str),
}

/// What is to be known of open writes of this order, by the word of the cases and those of the flags.
fn opened_fact(order: Order, words: &str) -> Fact<'_> {
    let (word, flags) = words.split_once(' ').unwrap_or((words, ""));
    match meant(OPENED, word) {
        Some(opened) => Fact::Opens(order, opened, flags),
        None => Fact::Answer(words),
    }
}

/// What is to hold of a model, in words without an order.
fn fact_of_order(order: Order, words: &str) -> Fact<'_> {
    let (word, rest) = words.split_once(' ').unwrap_or((words, ""));
    match word {
        "allows" => Fact::Says(order, true, rest),
        "forbids" => Fact::Says(order, false, rest),
        "refuted" => Fact::Refutes(order, true),
        "open" => Fact::Refutes(order, false),
        "opened" => opened_fact(order, rest),
        _ => Fact::Answer(words),
    }
}

/// What is to hold of a name, in words.
pub fn fact_of(words: &str) -> Fact<'_> {
    let (word, rest) = words.split_once(' ').unwrap_or((words, ""));
    if let Some(order) = meant(ORDERS, word) {
        return fact_of_order(order, rest);
    }
    if rest == "files" {
        return Fact::Files(word.parse::<usize>().unwrap_or(0));
    }
    match word {
        "neither" | "first" | "second" | "both" => Fact::RefutesExcerpt(word, rest == "refuted"),
        "orderless" => Fact::Orderless(true),
        "ordered" => Fact::Orderless(false),
        "copied" => Fact::Copied,
        "removed" => Fact::Removed,
        "rc11" => Fact::Text(RC11),
        "is" => Fact::Text(rest),
        "put" => Fact::Put(words),
        _ => fact_of_order(Order::Rlx, words),
    }
}

/// Whether one of the names is written so.
fn is_among(names: &[Name], wanted: &str) -> bool {
    for name in names {
        if name.bytes() == wanted.as_bytes() {
            return true;
        }
    }
    false
}

/// Whether these are the names, in any order.
pub fn are_names(names: &[Name], wanted: &str) -> bool {
    for name in wanted.split_whitespace() {
        if !is_among(names, name) {
            return false;
        }
    }
    names.len() == wanted.split_whitespace().count()
}

fn says_of_view(
    alloc: Global,
    view: &GraphView,
    model: &Model,
    allowed: bool,
    flags: &str,
) -> Result<bool, AllocError> {
    let judgement = judge(alloc, model, view)?;
    Ok(judgement.allowed() == allowed && are_names(judgement.flags(), flags))
}

fn says_of_graph(
    alloc: Global,
    execution: &Graph,
    model: &Model,
    allowed: bool,
    flags: &str,
) -> Result<bool, AllocError> {
    let view = GraphView::of(alloc, execution)?;
    says_of_view(alloc, &view, model, allowed, flags)
}

/// Whether a model says this of store buffering of this order.
pub fn says(
    alloc: Global,
    model: &Model,
    order: Order,
    allowed: bool,
    flags: &str,
) -> Result<bool, AllocError> {
    let execution = graph(alloc, STORE_BUFFERING, order)?;
    says_of_graph(alloc, &execution, model, allowed, flags)
}

/// What is said of store buffering with relaxed accesses, or with accesses of the order that is named.
const JUDGED: &str = "# allowed
 ==> allows
acyclic rf | co | fr ==> allows
~acyclic po | fr ==> allows
irreflexive po ; fr ==> allows
empty rmw ==> allows
empty R & W empty F empty {} ==> allows
empty [R] ; rf ==> allows
empty domain(rf) \\ IW ==> allows
empty range(rf) \\ R ==> allows
empty rf \\ IW * R ==> allows
empty rf & rf^-1 ==> allows
empty _ \\ (W | R) ==> allows
acyclic po+ ==> allows
let fr = 0 empty fr ==> allows
let po = fr and fr = po empty po & fr ==> allows
let rec r = r ; po empty r ==> allows
let rec r = po | r ; r irreflexive r ==> allows
empty ~(_ * _) ==> allows
irreflexive ~id ==> allows
include \"rc11.cat\" ==> allows
# forbidden
acyclic po | rf | co | fr ==> forbids
acyclic po | fr empty rmw ==> forbids
~acyclic po ==> forbids
irreflexive po ; fr ; po ; fr ==> forbids
empty fr ==> forbids
empty W \\ IW ==> forbids
empty [W] ; rf ==> forbids
empty domain(rf) & IW ==> forbids
empty rf & IW * R ==> forbids
irreflexive po? ==> forbids
irreflexive po* ==> forbids
irreflexive (po ; fr)+ ==> forbids
empty fr let fr = 0 ==> forbids
let rec r = po | r ; r empty r ==> forbids
let rec r = po | fr | r ; r irreflexive r ==> forbids
let rec a = po | po ; b and b = fr ; a irreflexive a ; fr ==> forbids
empty ~0 ==> forbids
acyclic ~id ==> forbids
include \"rc11.cat\" ==> sc forbids
# flags
flag ~empty fr as read ==> na allows read
flag empty fr as none ==> na allows
flag ~empty fr as b flag ~empty rf as a flag ~empty co as b ==> na allows a b
flag ~empty fr as read acyclic po | fr as order flag acyclic po as late ==> na forbids read late
include \"rc11.cat\" ==> na allows data-race";

#[test]
fn allowed_and_forbidden_and_flags(rt: HostRuntime) {
    all_hold(&rt, rt.alloc(), "judged", JUDGED, is_so);
}
