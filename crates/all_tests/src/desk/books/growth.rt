//! Each call of `slices` and `book` that takes memory. What is refused has left things as they were, is made again, and
//! then gets its own answer.

ghost use Rattle.std.specs.Prelude.{◌≡◌, [], IfOk, OnOk};
ghost use Rattle.all_tests.specs.Whole.{IsOver, IsWhole};

use crate::desk::commands::{SB, put_cat};
use crate::desk::works::{whole_part, whole_piece, work_of};
use crate::rows::{again, expect};
use book::{Command, Said};
use slices::{KeptSpace, Piece, PieceResult, Tally, Verdict, VerdictRef, WorkRef};
use std::alloc::{AllocError, Global};
use std::process::Abort;

/// How many executions have the proposition, how many don't, and how many final states there are.
type Counts = (u64, u64, usize);

/// Of SB under no constraint.
const BUFFERING: Counts = (1, 3, 4);

/// A store, and twelve loads of its location: two values of each load and two writes that it may read from, and one order. So many
/// numbers has a slice of a job of 2^32, which is cut into 256.
const LARGEST: &[u8] = b"C LARGEST
{}
P0 (atomic_int* x) {
  atomic_store_explicit(x, 1, memory_order_relaxed);
}
P1 (atomic_int* x) {
  int r0 = atomic_load_explicit(x, memory_order_relaxed);
  int r1 = atomic_load_explicit(x, memory_order_relaxed);
  int r2 = atomic_load_explicit(x, memory_order_relaxed);
  int r3 = atomic_load_explicit(x, memory_order_relaxed);
  int r4 = atomic_load_explicit(x, memory_order_relaxed);
  int r5 = atomic_load_explicit(x, memory_order_relaxed);
  int r6 = atomic_load_explicit(x, memory_order_relaxed);
  int r7 = atomic_load_explicit(x, memory_order_relaxed);
  int r8 = atomic_load_explicit(x, memory_order_relaxed);
  int r9 = atomic_load_explicit(x, memory_order_relaxed);
  int r10 = atomic_load_explicit(x, memory_order_relaxed);
  int r11 = atomic_load_explicit(x, memory_order_relaxed);
}
exists (1:r0=1 /\\ 1:r11=1)
";

/// A test of one execution, which has the proposition.
const ONE: &[u8] = b"C ONE
{}
P0 (atomic_int* x) {
  atomic_store_explicit(x, 1, memory_order_relaxed);
}
exists (x=1)
";

fn is_found(part: &PieceResult, counts: Counts) -> bool {
    let finding = part.found().finding();
    (
        finding.positive(),
        finding.negative(),
        finding.states().len(),
    ) == counts
}

/// Whether there are so many numbers, and the result of all of them has these counts.
fn is_evaluated(alloc: Global, work: &WorkRef, numbers: u64, counts: Counts) -> bool {
    match whole_part(alloc, work) {
        Ok(part) => is_found(&part, counts) && part.piece().to() == numbers,
        Err(AllocError) => false,
    }
}

/// The result of all numbers, over what the piece before left.
fn part_over(space: &mut KeptSpace, work: &WorkRef) -> Result<PieceResult, AllocError> {
    let piece = whole_piece(work)?;
    again!(AllocError, space.evaluate(&piece))
}

fn is_over(space: &mut KeptSpace, work: &WorkRef, counts: Counts) -> bool {
    match part_over(space, work) {
        Ok(part) => is_found(&part, counts),
        Err(AllocError) => false,
    }
}

/// Whether two pieces of SB, one of another test and two of SB again each have their own counts, over the candidates of the piece before.
fn are_kept_apart(alloc: Global, sb: &WorkRef, one: &WorkRef) -> bool {
    let mut space = KeptSpace::new(alloc);
    is_over(&mut space, sb, BUFFERING)
        && is_over(&mut space, sb, BUFFERING)
        && is_over(&mut space, one, (1, 0, 1))
        && is_over(&mut space, sb, BUFFERING)
        && is_over(&mut space, sb, BUFFERING)
}

fn is_piece_copied(piece: &Piece) -> bool {
    match piece.share() {
        Ok(copy) => copy == *piece,
        Err(AllocError) => false,
    }
}

fn is_part_copied(part: &PieceResult) -> bool {
    match part.share() {
        Ok(copy) => copy == *part,
        Err(AllocError) => false,
    }
}

/// Whether the copies of the result of all numbers and of its piece are their originals.
fn is_copied(alloc: Global, work: &WorkRef) -> bool {
    match whole_part(alloc, work) {
        Ok(part) => is_piece_copied(part.piece()) && is_part_copied(&part),
        Err(AllocError) => false,
    }
}

/// Whether this is the verdict on SB under no constraint, for this version of the test.
fn is_judged(verdict: &Verdict, version: u32) -> bool {
    verdict.version() == version && verdict.ok() && verdict.word() == "Sometimes"
}

/// Adds the result of all numbers to a tally.
#[tactic(auto, using(crate::proofs::Tallied::none_apart, crate::proofs::Tallied::whole))]
fn add_once(tally: &mut Tally, part: PieceResult) -> Result<(), AllocError>
    requires none { tally.old.spans ≡ [] }
    requires over { IsOver tally.old.work part }
    ensures { OnOk result (IsWhole tally.new) }
{
    match tally.merge(part) {
        Ok(()) => Ok(()),
        Err((_, AllocError)) => Err(AllocError),
    }
}

/// The same, once more where it was refused: the result comes back, and the tally still has none.
#[tactic(auto, using(crate::proofs::Tallied::none_apart, crate::proofs::Tallied::whole))]
fn add(tally: &mut Tally, part: PieceResult) -> Result<(), AllocError>
    requires none { tally.old.spans ≡ [] }
    requires over { IsOver tally.old.work part }
    ensures { OnOk result (IsWhole tally.new) }
{
    match tally.merge(part) {
        Ok(()) => Ok(()),
        Err((part, AllocError)) => {
            if tally.spans().is_empty() && is_found(&part, BUFFERING) {
                add_once(tally, part)
            } else {
                Err(AllocError)
            }
        }
    }
}

/// A tally of no result.
fn tally_of(alloc: Global, work: &WorkRef) -> Result<Tally, AllocError>
    ensures { IfOk result (λ t. t ≡ record { work = work.now; spans = [] }) }
{
    match Tally::new(alloc, work.share()?) {
        Ok(tally) => Ok(tally),
        Err(AllocError) => Tally::new(alloc, work.share()?),
    }
}

/// The verdict of a tally, which stays as it is.
fn verdict_of(tally: &Tally) -> Result<Verdict, AllocError>
    requires { IsWhole tally.now }
{
    again!(AllocError, tally.verdict(1))
}

fn tallied(alloc: Global, work: &WorkRef) -> Result<Verdict, AllocError> {
    let part = whole_part(alloc, work)?;
    let mut tally = tally_of(alloc, work)?;
    add(&mut tally, part)?;
    verdict_of(&tally)
}

fn is_tallied(alloc: Global, work: &WorkRef) -> bool {
    match tallied(alloc, work) {
        Ok(verdict) => is_judged(&verdict, 1),
        Err(AllocError) => false,
    }
}

fn judged(alloc: Global, work: &WorkRef) -> Result<Verdict, AllocError> {
    again!(AllocError, Verdict::judge(alloc, work.share()?, 4, 7))
}

fn is_kept(alloc: Global, work: &WorkRef) -> Result<bool, AllocError> {
    let verdict = again!(AllocError, VerdictRef::new(alloc, judged(alloc, work)?))?;
    Ok(is_judged(verdict.verdict(), 7))
}

/// Whether the results of a test, and of one of one execution, are as they should be.
fn expect_results(rt: &impl Abort, alloc: Global, sb: &WorkRef, one: &WorkRef) {
    expect(rt, "works: how many numbers SB has", sb.work().size() == 16);
    expect(rt, "works: SB itself", sb.work() == sb.work());
    let is_evaluated = is_evaluated(alloc, sb, 16, BUFFERING);
    expect(rt, "results: the result of all numbers", is_evaluated);
    expect(rt, "copies: copies of the result", is_copied(alloc, sb));
    let is_tallied = is_tallied(alloc, sb);
    expect(
        rt,
        "sb_calls: the verdict of a tally on version 1",
        is_tallied,
    );
    let is_kept = is_kept(alloc, sb).unwrap_or(false);
    expect(rt, "verdicts: the verdict on version 7", is_kept);
    let are_kept_apart = are_kept_apart(alloc, sb, one);
    expect(
        rt,
        "kept_spaces: pieces of two tests, in turn",
        are_kept_apart,
    );
}

#[test]
fn results(rt: HostRuntime) {
    let alloc = rt.alloc();
    let sb = work_of(alloc, SB, b"stdlib.cat");
    let one = work_of(alloc, ONE, b"stdlib.cat");
    match (&sb, &one) {
        (Ok(sb), Ok(one)) => expect_results(&rt, alloc, sb, one),
        _ => expect(&rt, "works of two tests", false),
    }
}

/// A quarter of the executions has the proposition: each load reads from the one write or the other.
#[test]
fn largest_piece(rt: HostRuntime) {
    let alloc = rt.alloc();
    let is_evaluated = match &work_of(alloc, LARGEST, b"stdlib.cat") {
        Ok(work) => is_evaluated(alloc, work, 1 << 24, (1_024, 3_072, 4)),
        Err(AllocError) => false,
    };
    expect(&rt, "the largest piece", is_evaluated);
}

/// Whether a command is shown as the put of SB as a cat file.
fn is_put(said: &Said) -> bool {
    match said {
        Said::PutCat(name, text) => name.bytes() == b"a.cat".as_slice() && text.bytes() == SB,
        _ => false,
    }
}

/// Whether a copy of what is shown is shown so. What is refused leaves it.
fn is_copy(said: &Said) -> bool {
    match again!(AllocError, said.copy()) {
        Ok(copy) => is_put(&copy) && copy == *said,
        Err(AllocError) => false,
    }
}

/// Whether the journal shows the command so. What is refused leaves the command.
fn is_shown(command: &Command) -> bool {
    match again!(AllocError, command.seen()) {
        Ok(said) => is_put(&said) && is_copy(&said),
        Err(AllocError) => false,
    }
}

#[test]
fn shown_commands(rt: HostRuntime) {
    let is_shown = match &put_cat(rt.alloc(), b"a.cat", SB) {
        Ok(command) => is_shown(command),
        Err(AllocError) => false,
    };
    expect(&rt, "the put of SB as a cat file", is_shown);
}
