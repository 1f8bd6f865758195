//! Judging one test, quickly or wholly.

use crate::deadline::Deadline;
use crate::meter::Meter;
use inputs::{Asked, Stage, Test};
use std::alloc::Global;
use std::thread::Threads;
use std::time::Clock;

/// After so many milliseconds a test is left to a later pass.
const WHILE: u64 = 200;

/// What all tests have in common.
#[derive(Clone, Copy)]
pub struct Plan<'a> {
    pub asked: Asked<'a>,
    /// Whether it is printed why the verdicts are what they are.
    pub why: bool,
    /// How many threads judge.
    pub threads: u16,
    /// After how many milliseconds a test is given up.
    pub limit: u64,
}

/// Judges a test that waits by one thread. It waits on where it takes more than a while.
pub fn judge_quickly<R: Clock + Eprint + Threads + Sync>(
    test: &mut Test<'_>,
    rt: &R,
    alloc: Global,
    plan: &Plan<'_>,
) {
    if matches!(test.stage, Stage::Waiting) {
        let limit = plan.limit.min(WHILE);
        let mut deadline = Deadline::new(rt, limit, plan.limit, Meter::new(rt, 0, false));
        test.judge(rt, alloc, &plan.asked, 1, &mut deadline);
    }
}

/// Judges a test by all threads, and gives it up where it takes longer than the plan says.
pub fn judge_wholly<R: Clock + Eprint + AllocGlobal + Threads + Sync>(
    test: &mut Test<'_>,
    rt: &R,
    plan: &Plan<'_>,
    meter: &mut Meter,
) {
    let mut deadline = Deadline::new(rt, plan.limit, plan.limit, *meter);
    test.judge(rt, rt.alloc(), &plan.asked, plan.threads, &mut deadline);
    *meter = deadline.meter;
}
