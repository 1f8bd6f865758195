//! One worker some of whose calls and evaluations are refused.

ghost use Rattle.std.specs.Prelude.{◌≡◌};
ghost use Rattle.journal.specs.Lines.{returned};
ghost use Rattle.workers.specs.Replies.{Replied, claimed_of, goes_on, is_done};

use crate::desk::calls::make_all;
use crate::desk::working::calls::last_claim;
use crate::desk::working::gates::{Doorway, Holds, Watching};
use crate::desk::working::running::LIMITS;
use book::Refused;
use sessions::{Desk, Pass, open};
use slices::{KeptSpace, Piece, PieceResult};
use std::alloc::{AllocError, Global};
use std::marker::Brand;
use std::sync::Wait;
use std::sync::atomic::{AtomicU64, Ordering};
use std::sync::ledger::{Blank, Ledger};
use std::time::Clock;
use workers::{Calls, Claimed, Form, work};

/// Refuses the calls, and the evaluations, whose numbers, from 0, are in a set of bits.
#[derive(Clone, Copy)]
struct Denied {
    calls: u64,
    evaluations: u64,
}

/// A desk that refuses so. It tells the gate of each evaluation.
#[derive(Drop)]
struct Refusing<'a, L: Ledger> {
    desk: &'a Desk<L>,
    door: &'a Doorway,
    made: AtomicU64,
    evaluated: AtomicU64,
    refused: Denied,
}

/// Counts on, and says whether the number that it was at is in a set of bits.
fn is_next(count: &AtomicU64, bits: u64) -> bool {
    let number = count.fetch_add(1, Ordering::SeqCst);
    number < 64 && (bits >> number) & 1 == 1
}

impl<'a, L: Ledger> Refusing<'a, L> {
    fn refuses(&self) -> bool {
        is_next(&self.made, self.refused.calls)
    }
}

impl<'a, L: Ledger> Calls<L> for Refusing<'a, L> {
    ghost use Rattle.workers.specs.Trace.{anything};

    ghost refuses = { λ desk. anything };

    fn claim<R: Wait>(&self, rt: &R, pass: &mut Pass<L>) -> Result<Claimed, Refused> {
        if self.refuses() {
            return Err(Refused::NoMemory);
        }
        self.desk.claim(rt, pass)
    }

    fn evaluate(&self, space: &mut KeptSpace, piece: &Piece) -> Result<PieceResult, AllocError> {
        self.door.evaluate(piece);
        if is_next(&self.evaluated, self.refused.evaluations) {
            return Err(AllocError);
        }
        self.desk.evaluate(space, piece)
    }

    fn hand_in<R: Wait>(
        &self,
        rt: &R,
        pass: &mut Pass<L>,
        found: PieceResult,
    ) -> Result<bool, Refused> {
        if self.refuses() {
            return Err(Refused::NoMemory);
        }
        self.desk.hand_in(rt, pass, found)
    }

    fn give_back<R: Wait>(&self, rt: &R, pass: &mut Pass<L>, number: u32) -> Result<bool, Refused> {
        if self.refuses() {
            return Err(Refused::NoMemory);
        }
        self.desk.give_back(rt, pass, number)
    }

    fn wait_work<R: Wait>(&self, rt: &R) {
        Calls::wait_work(self.desk, rt)
    }
}

/// What a worker did: the evaluations, give-backs and refusals that it counted, and its receipts.
type Done = (u64, u64, u64, usize);

/// Puts store buffering, and asks for it twice: two jobs of one piece each.
const TWO_JOBS: &str = "
> 1 test
C SB
{}
P0 (atomic_int* x, atomic_int* y) {
  atomic_store_explicit(x, 1, memory_order_relaxed);
  int r0 = atomic_load_explicit(y, memory_order_relaxed);
}
P1 (atomic_int* x, atomic_int* y) {
  atomic_store_explicit(y, 1, memory_order_relaxed);
  int r0 = atomic_load_explicit(x, memory_order_relaxed);
}
exists (0:r0=0 /\\ 1:r0=0)
> 1 ask SB rc11.cat
> 1 ask SB rc11.cat
";

/// What one worker does with two jobs of one piece, where these are refused.
fn run_refused<L: Ledger, R: Wait + Clock>(
    rt: &R,
    alloc: Global,
    blank: Blank,
    refused: Denied,
) -> Result<Option<Done>, AllocError>
    requires { (blank.name ≡ L.name) × (blank.parts ≡ L.parts) × (blank.parts ≡ 2) }
{
    let (desk, mut passes) = open::<L>(alloc, blank, LIMITS, 2)?;
    let _ = make_all(rt, alloc, &desk, &mut passes[1], TWO_JOBS);
    Ok(worked(rt, alloc, &desk, &mut passes[0], refused))
}

/// None where the gate wasn't told of each evaluation, before and behind it, at the place of the pass.
fn worked<L: Ledger, R: Wait + Clock>(
    rt: &R,
    alloc: Global,
    desk: &Desk<L>,
    pass: &mut Pass<L>,
    refused: Denied,
) -> Option<Done>
    requires { pass.old.parts ≡ 1 }
{
    let gate = Watching::new(rt, Holds::Never, 5);
    let calls = Refusing {
        desk,
        door: &gate.first,
        made: AtomicU64::new(0),
        evaluated: AtomicU64::new(0),
        refused,
    };
    work(rt, alloc, Form::UntilIdle, &calls, &gate, 5, pass);
    if !gate.first.is_left_by(last_claim(pass)) || gate.entered().is_none() {
        return None;
    }
    let counts = pass.counts();
    Some((
        counts.evaluated,
        counts.given_back,
        counts.refused,
        pass.receipts().len(),
    ))
}

fn done_under<R: Wait + Clock>(
    rt: &R,
    alloc: Global,
    refused: Denied,
) -> Result<Option<Done>, AllocError> {
    run_refused::<Brand, R>(rt, alloc, Blank::new(2), refused)
}

/// Whether a worker does so under these refusals.
fn is_done<R: Wait + Clock>(rt: &R, alloc: Global, refused: Denied, wanted: Done) -> bool {
    match done_under(rt, alloc, refused) {
        Ok(done) => done == Some(wanted),
        Err(AllocError) => false,
    }
}

/// The calls and the evaluations that are refused, of a worker over two pieces, and what it did.
const REFUSALS: [(u64, u64, Done); 8] = [
    (0b0, 0b0, (2, 0, 0, 5)),
    (0b1, 0b0, (0, 0, 1, 0)),
    (0b10, 0b0, (1, 1, 1, 2)),
    (0b110, 0b0, (1, 0, 2, 1)),
    (0b1000, 0b0, (2, 1, 1, 4)),
    (0b0, 0b1, (0, 1, 0, 2)),
    (0b0, 0b10, (1, 1, 0, 4)),
    (0b10, 0b1, (0, 0, 1, 1)),
];

#[test]
fn refusals(rt: HostRuntime) {
    let alloc = rt.alloc();
    for (calls, evaluations, wanted) in &REFUSALS {
        let refused = Denied {
            calls: *calls,
            evaluations: *evaluations,
        };
        let is_done = is_done(&rt, alloc, refused, *wanted);
        assert!(rt; is_done, "{calls} {evaluations}");
    }
}
