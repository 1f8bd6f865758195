//! Texts, and what is asked of the tests that they spell. A call that memory was wanting for is made again.

use crate::candidate::executions::TEXTS;
use crate::litmus::read;
use crate::rows::{again, expanded, meant};
use c11_threads::{RunFault, runs};
use candidates::{Space, SpaceFault, Walk};
use events::{Coherence, Graph, Run};
use litmus_c::{Test, TestFault, read_test};
use std::alloc::{AllocError, Global};

/// The test that a text spells, or that has this name.
fn named(alloc: Global, text: &str) -> Result<Test, AllocError> {
    read(alloc, meant(TEXTS, text).unwrap_or(text))
}

/// How many runs a thread has, or why they aren't listed; `None` where the thread isn't there.
pub type Count = Option<Result<usize, RunFault>>;

/// What may hold of the runs of a thread.
pub type Check = fn(&[Run]) -> bool;

/// Whether a thread of a test has so many runs, of which this holds.
fn has_runs_in(alloc: Global, test: &Test, thread: usize, wanted: Count, check: Check) -> bool
    requires { IsAlwaysCallable check }
{
    if thread >= test.threads().len() {
        return wanted == None;
    }
    match again!(RunFault::NoMemory, runs(alloc, test, thread)) {
        Ok(runs) => wanted == Some(Ok(runs.len())) && check(&runs),
        Err(fault) => wanted == Some(Err(fault)),
    }
}

/// Whether a thread of the test that a text spells has so many runs, of which this holds.
pub fn has_runs(alloc: Global, text: &str, thread: usize, wanted: Count, check: Check) -> bool
    requires { IsAlwaysCallable check }
{
    match named(alloc, text) {
        Ok(test) => has_runs_in(alloc, &test, thread, wanted, check),
        Err(_) => false,
    }
}

/// Holds of any runs.
pub fn any(_runs: &[Run]) -> bool {
    true
}

/// What is reported of a space: how many candidates it has, how many of them are executions, how many executions a walk finds, or how many
/// it finds at a number and the fifteen behind it.
fn report(alloc: Global, space: &Space, question: &str) -> Result<u64, AllocError> {
    match question {
        "size" => Ok(space.size()),
        "executions" => count_executions(alloc, space),
        "walked" => count_walked(alloc, space),
        _ => match question.strip_prefix("walked from ") {
            Some(number) => count_next(alloc, space, number.parse::<u64>().unwrap_or(u64::MAX)),
            None => Err(AllocError),
        },
    }
}

/// What is reported of a space, as a text.
fn report_shown(alloc: Global, space: &Space, question: &str) -> Result<String, AllocError> {
    let number = report(alloc, space, question)?;
    format!(in alloc; "{number}")
}

/// What is reported of the space of a test.
fn told_of(alloc: Global, test: &Test, question: &str) -> Result<String, AllocError> {
    match Space::new(alloc, test) {
        Ok(space) => report_shown(alloc, &space, question),
        Err(SpaceFault::NoMemory) => Err(AllocError),
        Err(fault) => format!(in alloc; "{fault:?}"),
    }
}

/// What is reported of the space of the test that a text spells, or that has this name.
pub fn told(alloc: Global, given: &str) -> Result<String, AllocError> {
    let (question, text) = given.split_once(": ").unwrap_or((given, ""));
    let whole = expanded(alloc, meant(TEXTS, text).unwrap_or(text))?;
    match read_test(alloc, whole.as_bytes()) {
        Ok(test) => told_of(alloc, &test, question),
        Err(TestFault::NoMemory) => Err(AllocError),
        Err(_) => String::from_str(alloc, "no test"),
    }
}

/// What may hold of a space.
pub type SpaceCheck = fn(Global, &Space) -> Result<bool, AllocError>;

/// Whether this holds of the space of a test.
fn holds_of_test(alloc: Global, test: &Test, check: SpaceCheck) -> bool
    requires { IsAlwaysCallable check }
{
    match again!(SpaceFault::NoMemory, Space::new(alloc, test)) {
        Ok(space) => check(alloc, &space).unwrap_or(false),
        Err(_) => false,
    }
}

/// Whether this holds of the space of the test that a text spells.
pub fn holds_of(alloc: Global, text: &str, check: SpaceCheck) -> bool
    requires { IsAlwaysCallable check }
{
    match read(alloc, text) {
        Ok(test) => holds_of_test(alloc, &test, check),
        Err(_) => false,
    }
}

/// How many candidates of a space are executions.
fn count_executions(alloc: Global, space: &Space) -> Result<u64, AllocError> {
    let mut count: u64 = 0;
    for number in 0..space.size() {
        if again!(_, space.graph(alloc, number))?.is_some() {
            count = count.saturating_add(1);
        }
    }
    Ok(count)
}

/// Whether each coherence order has the writes of the other at its place.
fn are_same_orders(orders: &[Coherence], others: &[Coherence]) -> bool {
    if orders.len() != others.len() {
        return false;
    }
    for (place, order) in orders.iter().enumerate() {
        if order.writes() != others[place].writes() {
            return false;
        }
    }
    true
}

/// Whether each run is like the other at its place.
fn are_same_runs(runs: &[Run], others: &[Run]) -> bool {
    if runs.len() != others.len() {
        return false;
    }
    for (place, run) in runs.iter().enumerate() {
        if !run.is_same(&others[place]) {
            return false;
        }
    }
    true
}

/// Whether two executions are the same: their initial values, runs, read-from maps and coherence orders.
fn is_same(execution: &Graph, other: &Graph) -> bool {
    execution.init() == other.init()
        && execution.rf() == other.rf()
        && are_same_runs(execution.runs(), other.runs())
        && are_same_orders(execution.co(), other.co())
}

/// Whether the execution at a number is this one.
fn stands_at(
    alloc: Global,
    space: &Space,
    number: u64,
    execution: &Graph,
) -> Result<bool, AllocError> {
    if number >= space.size() {
        return Ok(false);
    }
    match again!(_, space.graph(alloc, number))? {
        Some(graph) => Ok(is_same(&graph, execution)),
        None => Ok(false),
    }
}

/// How many executions a walk over a space finds from here on, each behind the one before, and each at its number; none
/// where one isn't.
fn count_on(alloc: Global, space: &Space, walk: &mut Walk) -> Result<u64, AllocError> {
    let mut count: u64 = 0;
    let mut least: u64 = 0;
    for _ in 0..space.size() {
        let Some(number) = again!(_, walk.next(alloc))? else {
            return Ok(count);
        };
        if number < least || !stands_at(alloc, space, number, walk.graph())? {
            return Ok(0);
        }
        least = number.saturating_add(1);
        count = count.saturating_add(1);
    }
    Ok(count)
}

/// How many executions a walk over a whole space finds so.
fn count_walked(alloc: Global, space: &Space) -> Result<u64, AllocError> {
    let mut walk = space.walk(alloc, 0, space.size());
    count_on(alloc, space, &mut walk)
}

/// How many a walk finds at a number and the fifteen behind it.
fn count_next(alloc: Global, space: &Space, number: u64) -> Result<u64, AllocError> {
    let end = number.saturating_add(16);
    if end > space.size() {
        return Ok(0);
    }
    let mut walk = space.walk(alloc, number, end);
    count_on(alloc, space, &mut walk)
}
