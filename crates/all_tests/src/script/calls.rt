//! Rows: what is given, the call that is made of it, and what is to be answered.
//!
//! A literal of many rows is dear to prove, and a text costs nothing. So the rows stand in texts, and a test reads them: each row is
//! behind `=== `, its name on the first line, and a test fails with the text of the first row that doesn't hold. In a row a name between
//! signs of percent is the text of that name, and `%3 times TEXT%` is TEXT three times.
//!
//! What is given is followed by a line of `+++` and the call, and what is answered stands behind a line `---`:
//!
//! - `+++ one`, or `+++ one in 5 slices`: a test, then models, one a line, and the summary or the refusal under each of them. A line of three
//!   dots stands for whatever is left out there.
//! - `+++ serve`, with limits, workers or `a reader that fails`: a script, and its end in a line before its answers. Behind lines
//!   `--- or` are ends and answers of a script that is refused memory.
//! - `+++ book`, with limits: calls of a script, each behind `> `, and their replies.
//! - `+++ bench` with words, and behind them `, room 16` where the writer has so little: an input, and the status in a line before what is
//!   written.

ghost use Rattle.std.specs.Prelude.{◌≤◌};

use crate::cases::{is_shown, limits_of, number_behind, parts_of, sink};
use crate::desk::books::scene::is_played;
use crate::rows::expect;
use crate::script::tasks::is_done;
use crate::script::texts::expanded;
use book::Limits;
use program::{OneFault, one};
use scripts::{Options, ServeFault, serve};
use std::alloc::{AllocError, Global};
use std::process::Abort;
use std::sync::Wait;
use std::thread::Threads;
use wb_text::{MemSink, MemSource};

/// What becomes of a row.
#[derive(Clone, Copy)]
pub enum Tried {
    /// It is answered as it says.
    Answered,
    /// It is refused memory, and told so as it may be.
    Refused,
    Wrong,
}

/// One worker, on the thread of the script, and a book whose journal is not to be full.
pub const ALONE: Options = Options {
    workers: 0,
    limits: Limits {
        journal: 100,
        versions: 100,
        claims: 100,
    },
};

/// How `one` is called.
#[derive(Clone, Copy)]
pub struct Way {
    pub slices: u16,
    /// Whether the reader fails behind the input.
    pub fails: bool,
}

/// What is answered to an input under a cat text, by what is left in a writer.
pub fn summarized(
    alloc: Global,
    input: &[u8],
    cat: &[u8],
    way: Way,
    writer: &mut MemSink,
) -> Result<(), OneFault>
    requires { (1 ≤ way.slices) × (way.slices ≤ 256) }
{
    let mut reader = MemSource::new(input, way.fails);
    one(alloc, &mut reader, cat, way.slices, writer)
}

/// What is answered to a script under these options, where the reader fails at its end or not, by what is left in a writer.
pub fn served<T: Threads + Wait + Sync>(
    rt: &T,
    alloc: Global,
    script: &[u8],
    options: &Options,
    fails: bool,
    writer: &mut MemSink,
) -> Result<(), ServeFault>
    requires { options.now.workers ≤ 8 }
{
    let mut reader = MemSource::new(script, fails);
    serve(rt, alloc, &mut reader, writer, options)
}

/// Whether these bytes are a text or, where that has a gap, a line of three dots, begin and end so.
fn is_text(bytes: &[u8], wanted: &str) -> bool {
    match wanted.split_once("...\n") {
        Some((start, end)) => {
            bytes.starts_with(start.as_bytes()) && bytes.ends_with(end.as_bytes())
        }
        None => bytes == wanted.as_bytes(),
    }
}

/// Whether this outcome, with these bytes written, is what is wanted: a summary, or the line of a refusal, by which nothing is written.
fn is_wanted(alloc: Global, outcome: &Result<(), OneFault>, bytes: &[u8], wanted: &str) -> bool {
    match outcome {
        Ok(()) => is_text(bytes, wanted),
        Err(fault) => match wanted.strip_prefix("refused ") {
            Some(refusal) => {
                fault.is_refusal() && bytes.is_empty() && is_shown(alloc, fault, refusal.trim_end())
            }
            None => false,
        },
    }
}

/// What became of a call of `one`. One that is refused memory writes nothing.
fn judged(alloc: Global, outcome: &Result<(), OneFault>, bytes: &[u8], wanted: &str) -> Tried {
    if is_wanted(alloc, outcome, bytes, wanted) {
        Tried::Answered
    } else if bytes.is_empty() && matches!(outcome, Err(OneFault::NoMemory)) {
        Tried::Refused
    } else {
        Tried::Wrong
    }
}

fn try_summary(alloc: Global, test: &str, cat: &str, way: Way, wanted: &str) -> Tried
    requires { (1 ≤ way.slices) × (way.slices ≤ 256) }
{
    match sink(alloc, 4096) {
        Ok(mut writer) => {
            let outcome = summarized(alloc, test.as_bytes(), cat.as_bytes(), way, &mut writer);
            judged(alloc, &outcome, writer.bytes(), wanted)
        }
        Err(AllocError) => Tried::Wrong,
    }
}

fn try_under(alloc: Global, test: &str, model: &str, way: Way, wanted: &str) -> Tried
    requires { (1 ≤ way.slices) × (way.slices ≤ 256) }
{
    match expanded(alloc, model) {
        Ok(cat) => try_summary(alloc, test, cat.as_str(), way, wanted),
        Err(AllocError) => Tried::Wrong,
    }
}

/// In how many slices a call evaluates.
fn slices_of(call: &str) -> u16
    ensures { (1 ≤ result) × (result ≤ 256) }
{
    let slices = number_behind(call, " in ").unwrap_or(1);
    if slices > 256 {
        return 256;
    }
    if slices < 1 { 1 } else { slices as u16 }
}

/// What becomes of a test under each model: what became of it under the first that isn't answered so.
fn try_under_each(alloc: Global, call: &str, test: &str, models: &str, wanted: &str) -> Tried {
    let way = Way {
        slices: slices_of(call),
        fails: false,
    };
    for model in models.lines() {
        match try_under(alloc, test, model, way, wanted) {
            Tried::Answered => {}
            other => return other,
        }
    }
    Tried::Answered
}

/// How many workers a call names.
fn workers_of(call: &str) -> u8
    ensures { result ≤ 8 }
{
    let workers = number_behind(call, " workers ").unwrap_or(0);
    if workers > 8 { 8 } else { workers as u8 }
}

/// The options that a call of `serve` names, and the others of `ALONE`.
fn options_of(call: &str) -> Options
    ensures { result.workers ≤ 8 }
{
    Options {
        workers: workers_of(call),
        limits: limits_of(call),
    }
}

/// Whether a script ends so, with this written.
fn is_answer(alloc: Global, outcome: &Result<(), ServeFault>, bytes: &[u8], wanted: &str) -> bool {
    match wanted.split_once('\n') {
        Some((end, answers)) => bytes == answers.as_bytes() && is_end(alloc, outcome, end),
        None => false,
    }
}

fn is_end(alloc: Global, outcome: &Result<(), ServeFault>, end: &str) -> bool {
    match outcome {
        Ok(()) => end == "ok",
        Err(fault) => is_shown(alloc, fault, end),
    }
}

/// Whether these bytes are whole lines at the front of the answers behind an end.
fn is_front_of(bytes: &[u8], wanted: &str) -> bool {
    match wanted.split_once('\n') {
        Some((_, answers)) => {
            answers.as_bytes().starts_with(bytes) && (bytes.is_empty() || bytes.ends_with(b"\n"))
        }
        None => false,
    }
}

/// Whether a script ends as one of these, where a line isn't taken.
fn is_one_of(alloc: Global, outcome: &Result<(), ServeFault>, bytes: &[u8], others: &str) -> bool {
    for other in others.split("--- or\n") {
        if is_answer(alloc, outcome, bytes, other) {
            return true;
        }
    }
    false
}

/// What became of a script that has its own answers or, where a line isn't taken, others. One that is refused memory as a whole has the
/// first of its own answers.
fn judged_script(
    alloc: Global,
    outcome: &Result<(), ServeFault>,
    bytes: &[u8],
    wanted: &str,
) -> Tried {
    let (own, others) = wanted.split_once("--- or\n").unwrap_or((wanted, ""));
    if is_answer(alloc, outcome, bytes, own) {
        return Tried::Answered;
    }
    let refused = match outcome {
        Err(ServeFault::NoMemory) => is_front_of(bytes, own),
        _ => is_one_of(alloc, outcome, bytes, others),
    };
    if refused {
        Tried::Refused
    } else {
        Tried::Wrong
    }
}

fn try_script<T: Threads + Wait + Sync>(
    rt: &T,
    alloc: Global,
    call: &str,
    script: &str,
    wanted: &str,
) -> Tried {
    let options = options_of(call);
    let fails = call.ends_with("a reader that fails");
    match sink(alloc, 4096) {
        Ok(mut writer) => {
            let outcome = served(rt, alloc, script.as_bytes(), &options, fails, &mut writer);
            judged_script(alloc, &outcome, writer.bytes(), wanted)
        }
        Err(AllocError) => Tried::Wrong,
    }
}

/// What becomes of what is given, by a call and the models behind it.
fn try_call<T: Threads + Wait + Sync>(
    rt: &T,
    alloc: Global,
    call: &str,
    given: &str,
    wanted: &str,
) -> Tried {
    let (call, models) = call.split_once('\n').unwrap_or((call, ""));
    if call.starts_with("one") {
        let test = given.strip_suffix('\n').unwrap_or(given);
        return try_under_each(alloc, call, test, models, wanted);
    }
    if call.starts_with("serve") {
        return try_script(rt, alloc, call, given, wanted);
    }
    let holds = if call.starts_with("book") {
        is_played(alloc, call, given, wanted)
    } else {
        is_done(rt, alloc, call, given, wanted)
    };
    if holds { Tried::Answered } else { Tried::Wrong }
}

/// What becomes of a row.
pub fn try_row<T: Threads + Wait + Sync>(rt: &T, alloc: Global, row: &str) -> Tried {
    let Some((given, call, wanted)) = parts_of(row) else {
        return Tried::Wrong;
    };
    match (&expanded(alloc, given), &expanded(alloc, wanted)) {
        (Ok(given), Ok(wanted)) => try_call(rt, alloc, call, given.as_str(), wanted.as_str()),
        _ => Tried::Wrong,
    }
}

/// Fails with the first row that isn't answered as it says.
pub fn all_hold<T: Threads + Wait + Sync + Abort>(rt: &T, alloc: Global, rows: &str) {
    for row in rows.split("=== ").skip(1) {
        expect(rt, row, matches!(try_row(rt, alloc, row), Tried::Answered));
    }
}
