//! Rows on pieces that are made by hand, and a summary whose writer fails.

ghost use Rattle.slices.specs.Parts.{test_size};

use crate::cases::is_cut_off;
use crate::desk::works::work_of;
use crate::rows::expect;
use crate::script::texts::meant;
use conditions::{Place, observed};
use report::{WriteFault, write_summary};
use slices::{Piece, Tally, Verdict, WorkRef, evaluate};
use std::alloc::{AllocError, Global};
use std::process::Abort;
use wb_text::MemSink;

/// How many numbers a piece has at most.
const QUARTER: u64 = 1024;

/// The verdict of a work whose pieces are evaluated and merged from the last to the first.
fn from_last(alloc: Global, work: &WorkRef) -> Result<Verdict, AllocError> {
    let mut tally = Tally::new(alloc, work.share()?)?;
    let mut high = work.work().size();
    while high > 0 {
        let low = high.saturating_sub(QUARTER);
        let piece = Piece::new(1, 1, 0, low, high, work.share()?);
        let part = evaluate(alloc, &piece)?;
        match tally.merge(part) {
            Ok(()) => high = low,
            Err((_, AllocError)) => return Err(AllocError),
        }
    }
    tally.verdict(1)
}

/// Whether a verdict is of version 1 and says this.
fn says(verdict: &Verdict, word: &str, positive: u64, negative: u64) -> bool {
    verdict.version() == 1
        && verdict.word() == word
        && verdict.positive() == positive
        && verdict.negative() == negative
}

/// Whether a test has so many numbers under a built-in model, and this verdict from its pieces.
fn is_put_together(alloc: Global, work: &WorkRef, size: u64, positive: u64, negative: u64) -> bool {
    match from_last(alloc, work) {
        Ok(verdict) => {
            work.work().size() == size && says(&verdict, "Sometimes", positive, negative)
        }
        Err(AllocError) => false,
    }
}

/// Whether a place is the register r0 of the thread.
fn is_register(place: &Place, thread: usize) -> bool {
    match place {
        Place::Reg(of, name) => *of == thread && name.bytes() == b"r0".as_slice(),
        Place::Loc(_) => false,
    }
}

/// Whether a work's test observes just the registers r0 of its threads 0 and 1.
fn observes_both(alloc: Global, work: &WorkRef) -> bool {
    let test = work.work().test();
    match observed(alloc, test.condition(), test.listed()) {
        Ok(places) => {
            places.len() == 2 && is_register(&places[0], 0) && is_register(&places[1], 1)
        }
        Err(AllocError) => false,
    }
}

/// Whether a summary that is written to so little room ends in 95, with just the prefix written.
fn is_told_in_part(alloc: Global, verdict: &Verdict, summary: &str, room: usize) -> bool {
    match MemSink::new(alloc, room) {
        Ok(mut writer) => {
            write_summary(verdict, &mut writer) == Err(WriteFault::Write)
                && is_cut_off(writer.bytes(), summary, room)
        }
        Err(_) => false,
    }
}

/// Whether the summary of a verdict is cut off so wherever the writer fails.
fn is_told_in_parts(alloc: Global, verdict: &Verdict) -> bool {
    let summary = meant("SB summary");
    for room in 0..summary.len() {
        if !is_told_in_part(alloc, verdict, summary, room) {
            return false;
        }
    }
    true
}

fn is_told_in_parts_of(alloc: Global, work: &WorkRef) -> bool {
    match from_last(alloc, work) {
        Ok(verdict) => is_told_in_parts(alloc, &verdict),
        Err(AllocError) => false,
    }
}

/// Whether the works of two tests are put together from their pieces, and a summary is cut off where its writer fails.
fn expect_pieces(rt: &impl Abort, alloc: Global, reads: &WorkRef, buffering: &WorkRef) {
    let reads_so = is_put_together(alloc, reads, 4096, 1, 15);
    expect(
        rt,
        "iriw: four pieces, from the last to the first",
        reads_so,
    );
    let buffers_so = is_put_together(alloc, buffering, 16, 1, 3);
    expect(rt, "sb_calls: the one piece", buffers_so);
    expect(
        rt,
        "sb_calls: both registers",
        observes_both(alloc, buffering),
    );
    let in_parts = is_told_in_parts_of(alloc, buffering);
    expect(
        rt,
        "hostile_input_row_6_write_summary: 95 at each write in turn",
        in_parts,
    );
}

#[test]
fn pieces(rt: HostRuntime) {
    let alloc = rt.alloc();
    let reads = work_of(alloc, meant("IRIW").as_bytes(), b"rc11.cat");
    let buffering = work_of(alloc, meant("SB").as_bytes(), b"stdlib.cat");
    match (&reads, &buffering) {
        (Ok(reads), Ok(buffering)) => expect_pieces(&rt, alloc, reads, buffering),
        _ => expect(&rt, "works of two tests", false),
    }
}
