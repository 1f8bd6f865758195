//! Two workers on real threads beside two sessions: until the desk is idle, until a session closes the book at its verdict or while pieces are
//! held, and beside sessions that each poll for a verdict of their own.

ghost use Rattle.std.specs.Prelude.{◌≡◌, ◌≤◌, ◌<◌, All, length};

use crate::desk::calls::{entries, last_reply, make_all, recorded};
use crate::desk::working::calls::{
    all_alternate, had_verdict, job_of, last_claim, put_back, take_last,
};
use crate::desk::working::gates::{Holds, Watching};
use crate::desk::working::sharing::sessions_then_close;
use crate::rows::expect;
use book::{Command, Limits, Refusal, Reply};
use sessions::{Desk, Pass, open};
use std::alloc::{AllocError, Global};
use std::marker::Brand;
use std::sync::Wait;
use std::sync::ledger::{Blank, Ledger};
use std::thread;
use std::thread::Threads;
use std::time::{Clock, Duration};
use workers::{Report, work_until_closed, work_until_idle};

pub const LIMITS: Limits = Limits {
    journal: 100_000,
    versions: 10,
    claims: 10_000,
};

/// Puts independent reads of independent writes, with two values more, and asks for them: 4,096 numbers, in sixteen slices.
const IRIW: &str = "
> 3 test
C IRIW
{ 0:r8=2; 0:r9=3; }
P0 (atomic_int* x) {
  atomic_store_explicit(x, 1, memory_order_release);
}
P1 (atomic_int* y) {
  atomic_store_explicit(y, 1, memory_order_release);
}
P2 (atomic_int* x, atomic_int* y) {
  int r0 = atomic_load_explicit(x, memory_order_acquire);
  int r1 = atomic_load_explicit(y, memory_order_acquire);
}
P3 (atomic_int* x, atomic_int* y) {
  int r0 = atomic_load_explicit(y, memory_order_acquire);
  int r1 = atomic_load_explicit(x, memory_order_acquire);
}
exists (2:r0=1 /\\ 2:r1=0 /\\ 3:r0=1 /\\ 3:r1=0)
> 3 ask IRIW rc11.cat
";

/// What the sessions do, the last two passes, beside the workers, the first two.
#[derive(Clone, Copy)]
enum Course {
    /// The last asks, and polls once the workers have found nothing more. Their first pieces wait for one another.
    Idle,
    /// The last asks, polls and closes once it has the verdict. The workers' first pieces wait for one another.
    Closed,
    /// The last asks, and closes while the workers hold pieces.
    Held,
    /// Each asks and polls for itself, and then the first closes.
    Shared,
}

/// The evaluations, the give-backs and the refusals of all workers.
fn sums_of(report: &Report) -> (u64, u64, u64) {
    let mut evaluated = 0u64;
    let mut given_back = 0u64;
    let mut refused = 0u64;
    for counts in report.counts.as_slice() {
        evaluated = evaluated.saturating_add(counts.evaluated);
        given_back = given_back.saturating_add(counts.given_back);
        refused = refused.saturating_add(counts.refused);
    }
    (evaluated, given_back, refused)
}

/// Whether each of two workers returned a piece before it claimed the next, and the gate saw each piece come in and leave at its own pass's place.
fn are_alternating<L: Ledger, C>(workers: &[Pass<L>], gate: &Watching<'_, C>) -> bool {
    match workers {
        [first, second] => {
            let watched = gate.first.is_left_by(last_claim(first))
                && gate.second.is_left_by(last_claim(second));
            watched && all_alternate(workers)
        }
        _ => false,
    }
}

/// Whether its last call was answered that the book is closed.
fn ends_closed<L: Ledger>(pass: &Pass<L>) -> bool {
    match last_reply(pass) {
        Some(Reply::Refused(refusal)) => matches!(refusal, Refusal::Closed),
        _ => false,
    }
}

/// Whether each pass alternates, and ends so.
fn all_end_closed<L: Ledger>(passes: &[Pass<L>]) -> bool {
    for pass in passes {
        if !ends_closed(pass) {
            return false;
        }
    }
    all_alternate(passes)
}

/// Whether the workers and the session that asked did what the course says. Where pieces were held, each was evaluated.
fn has_gone_well<L: Ledger, C: Clock>(
    course: Course,
    workers: &[Pass<L>],
    report: &Report,
    session: &Pass<L>,
    gate: &Watching<'_, C>,
) -> bool {
    let Some(entered) = gate.entered() else {
        return false;
    };
    match course {
        Course::Idle | Course::Closed => {
            had_verdict(session) && are_alternating(workers, gate) && sums_of(report) == (16, 0, 0)
        }
        Course::Held => {
            all_end_closed(workers) && entered > 0 && sums_of(report) == (entered, 0, 0)
        }
        Course::Shared => all_alternate(workers),
    }
}

/// Polls its job until it has a verdict, for at most 10,000 turns of a millisecond.
pub fn poll_to_verdict<L: Ledger, R: Wait + Clock>(
    rt: &R,
    desk: &Desk<L>,
    pass: &mut Pass<L>,
    job: u32,
)
    requires { pass.old.parts ≡ 1 }
    ensures { pass.new.parts ≡ 1 }
{
    for _ in 0..10_000u32 {
        let _ = recorded(rt, desk, pass, Command::Poll(job));
        if matches!(last_reply(pass), Some(Reply::Verdict(_))) {
            return;
        }
        thread::sleep(rt, Duration::from_millis(1));
    }
}

fn close_at_verdict<L: Ledger, R: Wait + Clock>(rt: &R, desk: &Desk<L>, session: &mut Pass<L>)
    requires { session.old.parts ≡ 1 }
    ensures { session.new.parts ≡ 1 }
{
    if let Some(job) = job_of(session) {
        poll_to_verdict(rt, desk, session, job);
    }
    let _ = recorded(rt, desk, session, Command::Close);
}

/// Closes once a piece is held, and lets it go on then.
fn close_while_held<L: Ledger, R: Wait + Clock>(
    rt: &R,
    desk: &Desk<L>,
    session: &mut Pass<L>,
    gate: &Watching<'_, R>,
)
    requires { session.old.parts ≡ 1 }
    ensures { session.new.parts ≡ 1 }
{
    gate.wait_held();
    let _ = recorded(rt, desk, session, Command::Close);
    gate.tell_closed();
}

/// What the sessions do while the workers work, and whether each that asks for itself has its own verdict.
fn sessions_beside<L: Ledger + Send + Sync, R: Threads + Wait + Clock + Sync>(
    rt: &R,
    alloc: Global,
    desk: &Desk<L>,
    first: Pass<L>,
    mut second: Pass<L>,
    course: Course,
    gate: &Watching<'_, R>,
) -> (Pass<L>, Pass<L>, bool)
    requires first { first.parts ≡ 1 }
    requires second { second.parts ≡ 1 }
    ensures first { result.0.parts ≡ 1 }
    ensures second { result.1.parts ≡ 1 }
{
    match course {
        Course::Idle => (first, second, true),
        Course::Closed => {
            close_at_verdict(rt, desk, &mut second);
            (first, second, true)
        }
        Course::Held => {
            close_while_held(rt, desk, &mut second, gate);
            (first, second, true)
        }
        Course::Shared => sessions_then_close(rt, alloc, desk, first, second),
    }
}

/// The workers, whose passes come back.
fn worked<L: Ledger + Send + Sync, R: Threads + Wait + Clock + Sync>(
    rt: &R,
    alloc: Global,
    desk: &Desk<L>,
    mut passes: Vec<Pass<L>>,
    course: Course,
    gate: &Watching<'_, R>,
) -> (Vec<Pass<L>>, Report)
    requires shares { All (λ p. p.parts ≡ 1) passes.items }
    requires few { length passes.items ≤ 64 }
    ensures { All (λ p. p.parts ≡ 1) result.0.items }
{
    if matches!(course, Course::Idle) {
        let report = work_until_idle(rt, alloc, desk, &mut passes, gate);
        return (passes, report);
    }
    let report = work_until_closed(rt, alloc, desk, &mut passes, gate);
    (passes, report)
}

/// The workers in a thread, and the sessions in this one. Each takes its passes by value, and gives them back.
fn all<L: Ledger + Send + Sync, R: Threads + Wait + Clock + Sync>(
    rt: &R,
    alloc: Global,
    desk: &Desk<L>,
    workers: Vec<Pass<L>>,
    first: Pass<L>,
    second: Pass<L>,
    course: Course,
    gate: &Watching<'_, R>,
) -> (Vec<Pass<L>>, Report, Pass<L>, Pass<L>, bool)
    requires shares { All (λ p. p.parts ≡ 1) workers.items }
    requires few { length workers.items ≤ 64 }
    requires first { first.parts ≡ 1 }
    requires second { second.parts ≡ 1 }
    ensures shares { All (λ p. p.parts ≡ 1) result.0.items }
    ensures first { result.2.parts ≡ 1 }
    ensures second { result.3.parts ≡ 1 }
{
    let ((workers, report), (first, second, told)) = thread::join(
        rt,
        || -> (Vec<Pass<L>>, Report)
            requires { All (λ p. p.parts ≡ 1) workers.items × (length workers.items ≤ 64) }
            ensures { All (λ p. p.parts ≡ 1) result.0.items }
        { worked(rt, alloc, desk, workers, course, gate) },
        || -> (Pass<L>, Pass<L>, bool)
            requires { (first.parts ≡ 1) × (second.parts ≡ 1) }
            ensures { (result.0.parts ≡ 1) × (result.1.parts ≡ 1) }
        { sessions_beside(rt, alloc, desk, first, second, course, gate) },
    );
    (workers, report, first, second, told)
}

fn put_both<L: Ledger>(
    passes: &mut Vec<Pass<L>>,
    first: Pass<L>,
    second: Pass<L>,
) -> Result<(), AllocError>
    requires all { All (λ p. p.parts ≡ 1) passes.old.items }
    requires one { first.parts ≡ 1 }
    requires other { second.parts ≡ 1 }
    ensures { All (λ p. p.parts ≡ 1) passes.new.items }
{
    put_back(passes, first)?;
    put_back(passes, second)
}

/// Whether `finish` answers Ok, with the entries of a put, an ask, 32 claims and returns, two claims that found nothing and a poll where the
/// session only polls.
fn is_whole<L: Ledger>(desk: Desk<L>, passes: Vec<Pass<L>>, course: Course) -> bool
    requires { All (λ p. p.parts ≡ 1) passes.items }
{
    match entries(desk, passes) {
        Some(found) => found == 2 + 32 + 2 + 1 || !matches!(course, Course::Idle),
        None => false,
    }
}

/// Polls where the session only polls.
fn polls<L: Ledger, R: Wait>(rt: &R, desk: &Desk<L>, session: &mut Pass<L>, course: Course) -> bool
    requires { session.old.parts ≡ 1 }
    ensures { session.new.parts ≡ 1 }
{
    match course {
        Course::Idle => recorded(rt, desk, session, Command::Poll(1)),
        _ => true,
    }
}

/// Whether a course goes well, after which all passes stand together again.
fn goes_on<L: Ledger + Send + Sync, R: Threads + Wait + Clock + Sync>(
    rt: &R,
    alloc: Global,
    desk: Desk<L>,
    workers: Vec<Pass<L>>,
    first: Pass<L>,
    mut second: Pass<L>,
    course: Course,
) -> Result<bool, AllocError>
    requires shares { All (λ p. p.parts ≡ 1) workers.items }
    requires few { length workers.items ≤ 64 }
    requires first { first.parts ≡ 1 }
    requires second { second.parts ≡ 1 }
{
    let (asks, holds) = match course {
        Course::Idle | Course::Closed => (IRIW, Holds::Two),
        Course::Held => (IRIW, Holds::Closed),
        Course::Shared => ("", Holds::Never),
    };
    let asked = make_all(rt, alloc, &desk, &mut second, asks);
    let gate = Watching::new(rt, holds, 0);
    let (mut passes, report, first, mut second, told) = all(
        rt, alloc, &desk, workers, first, second, course, &gate,
    );
    let polled = polls(rt, &desk, &mut second, course);
    let told = told
        && polled
        && (asked == 2 || matches!(course, Course::Shared))
        && has_gone_well(course, &passes, &report, &second, &gate);
    put_both(&mut passes, first, second)?;
    Ok(is_whole(desk, passes, course) && told)
}

fn beside<L: Ledger + Send + Sync, R: Threads + Wait + Clock + Sync>(
    rt: &R,
    alloc: Global,
    desk: Desk<L>,
    mut passes: Vec<Pass<L>>,
    second: Pass<L>,
    course: Course,
) -> Result<bool, AllocError>
    requires shares { All (λ p. p.parts ≡ 1) passes.items }
    requires few { length passes.items ≤ 64 }
    requires one { second.parts ≡ 1 }
{
    match take_last(&mut passes) {
        Some(first) => goes_on(rt, alloc, desk, passes, first, second, course),
        None => Ok(false),
    }
}

fn run<L: Ledger + Send + Sync, R: Threads + Wait + Clock + Sync>(
    rt: &R,
    alloc: Global,
    blank: Blank,
    course: Course,
) -> Result<bool, AllocError>
    requires { (blank.name ≡ L.name) × (blank.parts ≡ L.parts) × (blank.parts ≡ 4) }
{
    let (desk, mut passes) = open::<L>(alloc, blank, LIMITS, 4)?;
    match take_last(&mut passes) {
        Some(second) => beside(rt, alloc, desk, passes, second, course),
        None => Ok(false),
    }
}

/// Whether a course goes well.
fn goes_well<R: Threads + Wait + Clock + Sync>(rt: &R, alloc: Global, course: Course) -> bool {
    run::<Brand, R>(rt, alloc, Blank::new(4), course) == Ok(true)
}

#[test]
fn courses(rt: HostRuntime) {
    let alloc = rt.alloc();
    let idle = goes_well(&rt, alloc, Course::Idle);
    expect(&rt, "two_pieces_at_once: until the desk is idle", idle);
    let closed = goes_well(&rt, alloc, Course::Closed);
    expect(&rt, "two_pieces_at_once: until the book is closed", closed);
    let held = goes_well(&rt, alloc, Course::Held);
    expect(&rt, "closed_while_a_piece_is_held", held);
    let shared = goes_well(&rt, alloc, Course::Shared);
    expect(&rt, "two_sessions_two_workers", shared);
}
