//! From the text of a test to its verdicts.

ghost use Rattle.std.specs.Prelude.{◌≡◌, ◌≤◌, ◌<◌, map, All, IfOk, IfErr, IfSome};
ghost use Rattle.litmus_c.specs.Reads.{Reads};
ghost use Rattle.litmus_tree.specs.Tree.{Litmus};
ghost use Rattle.candidates.specs.Faults.{IsSpaceFault};
ghost use Rattle.suite.specs.Judged.{AreVerdicts, HasVerdicts, HasNone, IsUntold, IsRight, works_of};

use crate::fault::TestTrouble;
use crate::together::judge_together;
use cat_model::Model;
use litmus_c::{Test, read_test};
use slices::{Course, Verdict, Work, WorkRef};
use std::alloc::{AllocError, Global};
use std::thread::Threads;

/// How long someone waits for a verdict. It is asked between two slices of a test.
pub trait Patience {
    /// Whether it is over.
    fn is_over(&mut self) -> bool;
}

/// Someone who waits for as long as it takes.
#[derive(Clone, Copy, Drop)]
pub struct Endless;

impl Patience for Endless {
    fn is_over(&mut self) -> bool {
        false
    }
}

/// How many numbers a slice has, where there are as many slices as that takes.
const SLICE: u64 = 1 << 16;

/// The most slices that a test is evaluated in: the patience is asked so often, and each costs what it takes to begin one.
const MOST_SLICES: u16 = 1_024;

/// The verdicts on the test that a text is, one for each of the models, in their order. So many threads evaluate slices of it at once.
pub fn judge_text<R: Threads + Sync, P: Patience>(
    rt: &R,
    alloc: Global,
    text: &[u8],
    models: &[Model],
    threads: u16,
    patience: &mut P,
) -> Result<Vec<Verdict>, TestTrouble>
    // The text reads as a test, and each verdict is right for that test under its model.
    ensures found { IfOk result (λ vs. HasVerdicts text.now models.now vs.items) }
    // The text reads as no test, or the test has too many runs or candidates. That it takes too long is said where the patience was over.
    ensures cause { IfErr result (HasNone text.now) }
{
    let test = read(alloc, text)?;
    judge_under(rt, alloc, &test, models, threads, patience)
}

/// The test that a text is.
fn read(alloc: Global, text: &[u8]) -> Result<Test, TestTrouble>
    ensures found { IfOk result (Reads text.now) }
    ensures cause { IfErr result (HasNone text.now) }
{
    match read_test(alloc, text) {
        Ok(test) => Ok(test),
        Err(fault) => Err(TestTrouble::of_test(fault)),
    }
}

/// The verdicts on a test under the models.
fn judge_under<R: Threads + Sync, P: Patience>(
    rt: &R,
    alloc: Global,
    test: &Test,
    models: &[Model],
    threads: u16,
    patience: &mut P,
) -> Result<Vec<Verdict>, TestTrouble>
    ensures works { IfOk result (λ vs. map (λ v. v.work) vs.items ≡ works_of test.now models.now) }
    ensures right { IfOk result (λ vs. All IsRight vs.items) }
    ensures cause { IfErr result (IsUntold test.now) }
{
    let mut verdicts = Vec::with_capacity(alloc, models.len())?;
    for model in models {
        verdicts.push(judge_one(rt, alloc, test, model, threads, patience)?)?;
    }
    Ok(verdicts)
}

/// The verdict on a test under a model.
fn judge_one<R: Threads + Sync, P: Patience>(
    rt: &R,
    alloc: Global,
    test: &Test,
    model: &Model,
    threads: u16,
    patience: &mut P,
) -> Result<Verdict, TestTrouble>
    ensures work { IfOk result (λ v. v.work ≡ record { test = test.now; model = model.now }) }
    ensures right { IfOk result IsRight }
    ensures cause { IfErr result (IsUntold test.now) }
{
    let work = work_of(alloc, test, model)?;
    let verdict = if threads > 1 {
        judge_together(rt, alloc, work, threads, patience)?
    } else {
        judge_work(alloc, work, patience)?
    };
    match verdict {
        Some(verdict) => Ok(verdict),
        None => Err(TestTrouble::Late),
    }
}

/// How many slices a test of so many numbers is evaluated in, where a slice has this many, or more where there would be more than 1,024 of them.
pub(crate) fn slices_for(size: u64, slice: u64) -> u16
    requires { 2 ≤ slice }
    ensures some { 1 ≤ result }
    ensures few { result ≤ MOST_SLICES }
{
    let wanted = size / slice + 1;
    if wanted > u64::from(MOST_SLICES) {
        MOST_SLICES
    } else {
        wanted as u16
    }
}

/// The verdict on a work, or none where the patience is over before.
fn judge_work<P: Patience>(
    alloc: Global,
    work: WorkRef,
    patience: &mut P,
) -> Result<Option<Verdict>, AllocError>
    ensures work { IfOk result (λ o. IfSome o (λ v. v.work ≡ work)) }
    ensures right { IfOk result (λ o. IfSome o IsRight) }
{
    let total = slices_for(work.work().size(), SLICE);
    let mut course = Course::new(alloc, work, total)?;
    for _slice in 0..total {
        if patience.is_over() {
            return Ok(None);
        }
        course.step()?;
    }
    Ok(Some(course.verdict(1)?))
}

/// The test under a model.
fn work_of(alloc: Global, test: &Test, model: &Model) -> Result<WorkRef, TestTrouble>
    ensures work { IfOk result (λ w. w ≡ record { test = test.now; model = model.now }) }
    ensures cause { IfErr result (IsUntold test.now) }
{
    match Work::new(alloc, test.copy()?, model.copy()?) {
        Ok(work) => Ok(WorkRef::new(alloc, work)?),
        Err(fault) => Err(TestTrouble::of_space(fault)),
    }
}
