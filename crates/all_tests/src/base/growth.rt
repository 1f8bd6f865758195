//! Each public call of the lowest crates that allocates, with its own answer.
//!
//! Each test passes, too, where one request for memory is refused, whichever it is: a refused call has left things as they
//! were and is made again. So `tools/refuse-each-growth all_tests` runs them once for each request.

use crate::base::executions::is_as_seen;
use crate::base::text::{litmus_told, name_told};
use crate::graphs::graph;
use crate::rows::{again, all_answered, all_hold, expect};
use events::{Order, Run};
use std::alloc::{AllocError, Global};
use wb_text::{MemSink, MemSource, read_up_to};

/// Are these bytes read from a source of them?
fn is_read(alloc: Global, bytes: &[u8]) -> bool {
    match again!(_, read_up_to(alloc, &mut MemSource::new(bytes, false), 10)) {
        Ok(read) => read.as_slice() == bytes,
        Err(_) => false,
    }
}

/// Does a sink begin with no bytes?
fn begins_empty(alloc: Global) -> bool {
    match again!(_, MemSink::new(alloc, 3)) {
        Ok(sink) => sink.bytes().is_empty(),
        Err(_) => false,
    }
}

const NAMES: &str = "rc11.cat ==> a name
SB ==> a name";

const TOKENS: &str = "# tokens of a text

C SB
{ ==> tokens Word 0 1 Word 2 4 Sign 5 6";

#[test]
fn texts(rt: HostRuntime) {
    let alloc = rt.alloc();
    all_answered(&rt, alloc, "names", NAMES, name_told);
    all_answered(&rt, alloc, "tokens", TOKENS, litmus_told);
    expect(&rt, "bytes of a source", is_read(alloc, b"abcd"));
    expect(&rt, "a sink", begins_empty(alloc));
}

/// Whether the copy of a run of two events has two, and becomes the run behind it.
fn is_copied(first: &Run, second: &Run) -> Result<bool, AllocError> {
    let mut copy = again!(_, first.copy())?;
    let has_two = copy.events().len() == 2;
    again!(_, copy.become_copy(second))?;
    Ok(has_two && copy.is_same(second))
}

/// Whether two runs are made, and that holds of them.
fn are_made_and_copied(alloc: Global, text: &str, _words: &str) -> Result<bool, AllocError> {
    let execution = again!(_, graph(alloc, text, Order::Rlx))?;
    match execution.runs() {
        [first, second] => is_copied(first, second),
        _ => Ok(false),
    }
}

const RUNS: &str = "# two events, and one

run | W 0 1 rlx | R 0 1 acq
run | W 0 1 rlx ==> copied";

#[test]
fn runs_and_views(rt: HostRuntime) {
    let alloc = rt.alloc();
    all_hold(&rt, alloc, "runs", RUNS, are_made_and_copied);
    all_hold(&rt, alloc, "views", "a view ==> weak made", is_as_seen);
}
