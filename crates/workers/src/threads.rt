//! The two forms: one worker for each pass, each on a thread of its own.

ghost use Rattle.std.specs.Prelude.{◌≡◌, ◌≤◌, All, length, map};
ghost use Rattle.std.specs.List.{AllZip};
ghost use Rattle.sessions.specs.Views.{PassView};
ghost use Rattle.workers.specs.Trace.{Worked};

use crate::working::{Form, Gate, work};
use arrayvec::ArrayVec;
use sessions::{Counts, Desk, Pass};
use std::alloc::Global;
use std::sync::Wait;
use std::sync::ledger::Ledger;
use std::thread;
use std::thread::Threads;

/// The counts of each pass, in their order.
#[derive(Drop)]
pub struct Report {
    pub counts: ArrayVec<Counts, 64>,
}

/// Each worker ends where nothing is free.
pub fn work_until_idle<L: Ledger + Send + Sync, G: Gate + Sync, R: Threads + Wait + Sync>(
    rt: &R,
    alloc: Global,
    desk: &Desk<L>,
    passes: &mut [Pass<L>],
    gate: &G,
) -> Report
    requires shares { All (λ p. p.parts ≡ 1) passes.old }
    requires few { length passes.old ≤ 64 }
    ensures each { AllZip (Worked Form.UntilIdle) passes.old passes.new }
    ensures report { result.counts.items ≡ map (λ p. p.counts) passes.new }
    ensures shares_kept { All (λ p. p.parts ≡ 1) passes.new }
{
    work_each(rt, alloc, Form::UntilIdle, desk, passes, gate);
    report_of(passes)
}

/// Each worker ends once the book is closed.
pub fn work_until_closed<L: Ledger + Send + Sync, G: Gate + Sync, R: Threads + Wait + Sync>(
    rt: &R,
    alloc: Global,
    desk: &Desk<L>,
    passes: &mut [Pass<L>],
    gate: &G,
) -> Report
    requires shares { All (λ p. p.parts ≡ 1) passes.old }
    requires few { length passes.old ≤ 64 }
    ensures each { AllZip (Worked Form.UntilClosed) passes.old passes.new }
    ensures report { result.counts.items ≡ map (λ p. p.counts) passes.new }
    ensures shares_kept { All (λ p. p.parts ≡ 1) passes.new }
{
    work_each(rt, alloc, Form::UntilClosed, desk, passes, gate);
    report_of(passes)
}

// The only function that starts threads.
fn work_each<L: Ledger + Send + Sync, G: Gate + Sync, R: Threads + Wait + Sync>(
    rt: &R,
    alloc: Global,
    form: Form,
    desk: &Desk<L>,
    passes: &mut [Pass<L>],
    gate: &G,
)
    requires { All (λ p. p.parts ≡ 1) passes.old }
    ensures each { AllZip (Worked form) passes.old passes.new }
    ensures shares { All (λ p. p.parts ≡ 1) passes.new }
{
    let threads = passes.len().max(1);
    thread::for_each_mut(
        rt,
        passes,
        threads,
        &move |place, pass: &mut Pass<L>|
            requires { pass.old.parts ≡ 1 }
            ensures { Worked form pass.old pass.new }
        { work(rt, alloc, form, desk, gate, place, pass) },
    );
}

fn report_of<L: Ledger>(passes: &[Pass<L>]) -> Report
    requires { length passes.now ≤ 64 }
    ensures { result.counts.items ≡ map (λ p. p.counts) passes.now }
{
    let mut counts = ArrayVec::new();
    for pass in passes {
        counts.push(pass.counts());
    }
    Report { counts }
}
