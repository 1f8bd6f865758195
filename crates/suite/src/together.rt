//! The verdict on a work whose slices are evaluated by several threads.

ghost use Rattle.std.specs.Prelude.{◌≡◌, ◌+◌, ◌<◌, ◌≤◌, IfOk, IfSome, OnOk, length, vec_len};
ghost use Rattle.suite.specs.Judged.{IsRight};
ghost use Rattle.suite.specs.Together.{AreFound, IsFoundBy, IsRound, IsSlice, HasFirst};

use crate::judging::{Patience, slices_for};
use slices::{KeptSpace, Piece, PieceResult, Tally, Verdict, WorkRef, cut};
use std::alloc::{AllocError, Global};
use std::thread;
use std::thread::Threads;

/// How many numbers a slice has, where there are as many slices as that takes.
const SLICE: u64 = 1 << 12;

/// How many slices a round has, or as many as there are threads, where those are more.
const ROUND: u16 = 16;

/// The slices of a test with more numbers than this are long.
const LONG: u64 = 1 << 24;

/// Slices that threads evaluate at once: of so many in all those from one on, up to another. Executions lie close together among the numbers, and so each
/// thread takes every n-th of these slices.
#[derive(Clone, Copy)]
pub struct Round {
    pub total: u16,
    pub from: u16,
    pub to: u16,
    pub threads: u16,
}

/// The verdict on a work, or none where the patience is over before. It is asked before each round.
pub(crate) fn judge_together<R: Threads + Sync, P: Patience>(
    rt: &R,
    alloc: Global,
    work: WorkRef,
    threads: u16,
    patience: &mut P,
) -> Result<Option<Verdict>, AllocError>
    requires { 1 ≤ threads }
    ensures work { IfOk result (λ o. IfSome o (λ v. v.work ≡ work)) }
    ensures right { IfOk result (λ o. IfSome o IsRight) }
{
    let size = work.work().size();
    let total = slices_for(size, SLICE);
    let threads = threads.min(total);
    let mut tally = Tally::new(alloc, work.share()?)?;
    let mut done = 0u16;
    while done < total {
        if patience.is_over() {
            return Ok(None);
        }
        let count = slices_of_round(size, threads).min(total - done);
        let round = Round {
            total,
            from: done,
            to: done + count,
            threads,
        };
        let found = evaluate_round(rt, alloc, &work, round)?;
        merge_round(&mut tally, round, &found)?;
        done += count;
    }
    Ok(Some(tally.verdict(1)?))
}

/// How many slices a round of a test with so many numbers has. Where they are long each thread has one, so that the patience is asked soon again.
fn slices_of_round(size: u64, threads: u16) -> u16
    requires { 1 ≤ threads }
    ensures { 1 ≤ result }
{
    if size > LONG {
        threads
    } else {
        threads.max(ROUND)
    }
}

/// The results of the slices of a round, thread by thread.
fn evaluate_round<R: Threads + Sync>(
    rt: &R,
    alloc: Global,
    work: &WorkRef,
    round: Round,
) -> Result<Vec<Result<Vec<PieceResult>, AllocError>>, AllocError>
    requires { IsRound round }
    ensures found { IfOk result (λ v. AreFound work.now round v.items) }
    ensures all { IfOk result (λ v. vec_len v ≡ round.threads) }
{
    thread::map_indices(
        rt,
        alloc,
        usize::from(round.threads),
        &move |thread: usize|
            requires { IsRound round × (thread < round.threads) }
            ensures { IfOk result (λ v. IsFoundBy work.entry.now round thread v.items) }
        { evaluate_turns(alloc, work, round, thread as u16) },
    )
}

/// The results of the slices that a thread takes in a round.
fn evaluate_turns(
    alloc: Global,
    work: &WorkRef,
    round: Round,
    thread: u16,
) -> Result<Vec<PieceResult>, AllocError>
    requires round { IsRound round }
    requires thread { thread < round.threads }
    ensures { IfOk result (λ v. IsFoundBy work.now round thread v.items) }
{
    let mut kept = KeptSpace::new(alloc);
    let mut found = Vec::new(alloc);
    let mut slice = round.from + thread;
    while slice < round.to {
        found.push(evaluate_slice(&mut kept, work, round.total, slice)?)?;
        slice += round.threads;
    }
    Ok(found)
}

/// The result of a slice.
fn evaluate_slice(
    kept: &mut KeptSpace,
    work: &WorkRef,
    total: u16,
    slice: u16,
) -> Result<PieceResult, AllocError>
    requires { slice < total }
    ensures { IfOk result (IsSlice work.now total slice) }
{
    let size = work.work().size();
    let from = cut(size, total, slice);
    let to = cut(size, total, slice + 1);
    kept.evaluate(&Piece::new(1, 1, slice, from, to, work.share()?))
}

/// Adds the results of a round to those before, slice after slice.
fn merge_round(
    tally: &mut Tally,
    round: Round,
    found: &[Result<Vec<PieceResult>, AllocError>],
) -> Result<(), AllocError>
    requires round { IsRound round }
    requires before { HasFirst round.total round.from tally.old }
    requires found { AreFound tally.old.work round found.now }
    requires all { length found.now ≡ round.threads }
    ensures merged { OnOk result (HasFirst round.total round.to tally.new) }
    ensures work { OnOk result (tally.new.work ≡ tally.old.work) }
{
    for slice in round.from..round.to {
        let place = slice - round.from;
        match &found[usize::from(place % round.threads)] {
            Ok(turns) => {
                let part = turns[usize::from(place / round.threads)].share()?;
                merge_slice(tally, round.total, slice, part)?;
            }
            Err(AllocError) => return Err(AllocError),
        }
    }
    Ok(())
}

/// Adds the result of a slice to those before.
fn merge_slice(
    tally: &mut Tally,
    total: u16,
    slice: u16,
    part: PieceResult,
) -> Result<(), AllocError>
    requires before { HasFirst total slice tally.old }
    requires part { IsSlice tally.old.work total slice part }
    requires within { slice < total }
    ensures merged { OnOk result (HasFirst total (slice + 1) tally.new) }
    ensures work { OnOk result (tally.new.work ≡ tally.old.work) }
{
    match tally.merge(part) {
        Ok(()) => {}
        Err((_, AllocError)) => return Err(AllocError),
    }
    Ok(())
}
