//! The runs of a thread.

ghost use Rattle.std.specs.Prelude.{◌≡◌, ◌<◌, ◌≤◌, length, map, IfOk, IfErr};
ghost use Rattle.listings.specs.Lists.{Lists};
ghost use Rattle.litmus_value.specs.Values.{values_of};
ghost use Rattle.litmus_tree.specs.Tree.{steps_of};
ghost use Rattle.events.specs.Executions.{no_places};
ghost use Rattle.c11_threads.specs.Runs.{IsRun, thread_of, start, run_of};
ghost use Rattle.c11_threads.specs.Unrolled.{setting_of, runs_of};
ghost use Rattle.c11_threads.specs.Faults.{IsRunFault};

use crate::fault::RunFault;
use crate::initial::initial_contents;
use crate::progress::Progress;
use crate::setting::Setting;
use crate::ways::Ways;
use events::{Run, no_places};
use litmus_tree::Statement;
use litmus_value::Test;
use std::alloc::{AllocError, Global};

/// A thread at its start.
fn start(alloc: Global, test: &Test, thread: usize) -> Result<Progress, AllocError>
    requires { thread < length test.now.threads }
    ensures { IfOk result (λ p. p ≡ start test.now thread) }
{
    Ok(Progress::new(alloc, initial_contents(alloc, test, thread)?))
}

/// What the statements of a thread stand in.
fn within<'a>(test: &'a Test, thread: usize, values: &'a [u32]) -> Setting<'a>
    requires thread { thread < length test.now.threads }
    requires values { values.now ≡ values_of test.now }
    ensures { result ≡ setting_of test.entry.now thread no_places }
{
    Setting {
        thread,
        locations: test.locations(),
        registers: test.threads()[thread].registers(),
        values,
        ctrl: no_places(),
    }
}

/// The statements of a thread.
fn statements(test: &Test, thread: usize) -> &[Statement]
    requires { thread < length test.now.threads }
    ensures { steps_of result.now ≡ (thread_of test.now thread).steps }
{
    test.threads()[thread].statements()
}

/// The runs that end so.
fn runs_from(alloc: Global, ends: Vec<Progress>) -> Result<Vec<Run>, AllocError>
    ensures { IfOk result (λ v. v.items ≡ map run_of ends.items) }
{
    let mut runs = Vec::new(alloc);
    for end in ends {
        runs.push(end.run(alloc)?)?;
    }
    Ok(runs)
}

/// The runs of a thread, each once. A run that reads a lower value first stands before the others.
pub fn runs(alloc: Global, test: &Test, thread: usize) -> Result<Vec<Run>, RunFault>
    requires { thread < length test.now.threads }
    ensures each { IfOk result (λ v. Lists (IsRun test.now thread) v.items) }
    ensures order { IfOk result (λ v. v.items ≡ runs_of test.now thread) }
    ensures within { IfOk result (λ v. length v.items ≤ 4096) }
    ensures fault { IfErr result (IsRunFault test.now thread) }
{
    let values = test.values(alloc)?;
    let setting = within(test, thread, &values);
    let from = start(alloc, test, thread)?;
    let start = Ways::new(alloc, thread, from)?;
    let ends = setting.perform_all(alloc, statements(test, thread), start)?;
    Ok(runs_from(alloc, ends.into_ends())?)
}
