//! The runs of threads.

use crate::candidate::texts::{Count, any, has_runs};
use crate::rows::{all_hold, expect};
use c11_threads::RunFault;
use events::{Access, Event, Order, Run};
use std::alloc::{AllocError, Global};

/// The number of a thread and a test, and how many runs the thread has. The two adds of `A` are of 1, and its values are 0 to 3. Where four
/// calls add 2, the values are 0, 1 and up to 8 and 9, and each of the calls reads one of the eight that are at most 7.
const COUNTS: &str = "# threads

0 SB ==> 2

1 SB ==> 2

2 SB ==> none

0 A ==> 3

1 A ==> 3

# sizes

0 C T
{}
P0 (atomic_int* x, atomic_int* y) {
@r = atomic_load_explicit(x, memory_order_relaxed);
@12@}
exists (x=0 /\\ y=0)
 ==> 4096

0 C T
{}
P0 (atomic_int* x, atomic_int* y) {
@r = atomic_load_explicit(x, memory_order_relaxed);
@12@if (r) {} else ;
r = 0;
}
exists (x=0 /\\ y=0)
 ==> 4096

0 C T
{}
P0 (atomic_int* x, atomic_int* y) {
@r = atomic_load_explicit(x, memory_order_relaxed);
@12@r = atomic_load(x);
}
exists (x=0 /\\ y=0)
 ==> TooManyRuns(0)

0 C T
{}
P0 (atomic_int* x, atomic_int* y) {
;}
exists (x=0 /\\ y=0)
 ==> 1

0 C T
{}
P0 (atomic_int* x, atomic_int* y) {
atomic_fetch_add(x, 2); atomic_fetch_add(x, 2); atomic_fetch_add(x, 2); atomic_fetch_add(x, 2);}
exists (x=0 /\\ y=0)
 ==> 4096

0 C T
{}
P0 (atomic_int* x, atomic_int* y) {
atomic_fetch_add(x, 2); atomic_fetch_add(x, 2); atomic_fetch_add(x, 2); atomic_fetch_add(x, 2); r = atomic_load(x);}
exists (x=0 /\\ y=0)
 ==> TooManyRuns(0)";

fn count_of(words: &str) -> Count {
    match words {
        "none" => None,
        "TooManyRuns(0)" => Some(Err(RunFault::TooManyRuns(0))),
        _ => Some(Ok(words.parse::<usize>().ok()?)),
    }
}

/// Whether a thread has so many runs.
fn is_counted(alloc: Global, given: &str, words: &str) -> Result<bool, AllocError> {
    let (thread, text) = given.split_once(' ').unwrap_or((given, ""));
    let thread = thread.parse::<usize>().unwrap_or(usize::MAX);
    Ok(has_runs(alloc, text, thread, count_of(words), any))
}

fn event_at(runs: &[Run], run: usize, event: usize) -> Option<&Event> {
    runs.get(run)?.events().get(event)
}

/// Whether an event has this value, and depends on the run's first event so.
fn is_so(event: Option<&Event>, value: u32, data: bool, ctrl: bool) -> bool {
    match event {
        Some(event) => {
            event.value == value
                && event.data_from.contains(0) == data
                && event.ctrl_from.contains(0) == ctrl
        }
        None => false,
    }
}

/// Whether in the second of two runs the first store depends on the read by control alone, and the last store of each by
/// data alone.
fn depend_so(runs: &[Run]) -> bool {
    is_so(event_at(runs, 0, 1), 0, true, false)
        && is_so(event_at(runs, 1, 1), 1, false, true)
        && is_so(event_at(runs, 1, 2), 1, true, false)
}

/// Whether an event is of this access, with this value and this order.
fn is_of(event: Option<&Event>, access: Access, value: u32, order: Order) -> bool {
    match event {
        Some(event) => event.access == access && event.value == value && event.order == order,
        None => false,
    }
}

/// Whether in the third of these runs an exchange reads 2 and writes 2.
fn exchange_so(runs: &[Run]) -> bool {
    is_of(event_at(runs, 2, 0), Access::ExRead, 2, Order::AcqRel)
        && is_of(event_at(runs, 2, 1), Access::ExWrite, 2, Order::AcqRel)
}

/// Whether in the second of these runs an addition reads 1 and writes 3, which depends on its own read alone.
fn addition_so(runs: &[Run]) -> bool {
    is_of(event_at(runs, 1, 0), Access::ExRead, 1, Order::AcqRel)
        && is_of(event_at(runs, 1, 1), Access::ExWrite, 3, Order::AcqRel)
        && is_so(event_at(runs, 1, 1), 3, true, false)
}

const CTRL: &str =
    "C T\n{}\nP0 (atomic_int* x, atomic_int* y) {\nint r = atomic_load(x); if (r) { atomic_store(y, 1); } atomic_store(y, r);\n}\nexists (x=0 /\\ y=0)\n";

const EXCHANGE: &str =
    "C T\n{}\nP0 (atomic_int* x, atomic_int* y) {\natomic_exchange_explicit(x, 2, memory_order_acq_rel);\n}\nexists (x=0 /\\ y=0)\n";

const ADDITION: &str =
    "C T\n{}\nP0 (atomic_int* x, atomic_int* y) {\natomic_fetch_add_explicit(x, 2, memory_order_acq_rel);\n}\nexists (x=0 /\\ y=0)\n";

#[test]
fn runs_of_threads(rt: HostRuntime) {
    let alloc = rt.alloc();
    all_hold(&rt, alloc, "counts", COUNTS, is_counted);
    let two = Some(Ok(2));
    expect(&rt, "ctrl", has_runs(alloc, CTRL, 0, two, depend_so));
    expect(
        &rt,
        "exchange",
        has_runs(alloc, EXCHANGE, 0, Some(Ok(3)), exchange_so),
    );
    expect(
        &rt,
        "addition",
        has_runs(alloc, ADDITION, 0, two, addition_so),
    );
}
