//! A task, from the input to the status.

ghost use Rattle.std.specs.Prelude.{◌≡◌, List, ℕ};
ghost use Rattle.program.specs.Inputs.{IsFaultOf, IsOfTexts, text_of};
ghost use Rattle.program.specs.Words.{IsInRange};
ghost use Rattle.program.specs.Tasks.{Does, Evaluates, IsTold, IsUnder, script_status};

use crate::command_line::Task;
use crate::refusal::write_refusal;
use crate::summary::{OneFault, one};
use scripts::{Options, ServeFault, serve};
use std::alloc::Global;
use std::sync::Wait;
use std::thread::Threads;
use wb_text::{Failed, Sink, Source};

/// The status where all is done.
pub const DONE: u8 = 0;

/// The status where reading, writing or memory fails, or where a script's journal is not what its sessions were answered.
pub const FAILED: u8 = 1;

/// The status where a line of the script or the test is bad.
pub const BAD: u8 = 2;

/// Reads the input as the task says, as a script or as one test, and writes the answers or the summary. It answers the status.
pub fn do_task<R: Source, W: Sink, T: Threads + Wait + Sync>(
    rt: &T,
    alloc: Global,
    task: Task,
    reader: &mut R,
    writer: &mut W,
) -> u8
    requires { IsInRange task }
    // A script is served by the workers that the task says; one test is evaluated under the model that has no checks.
    ensures { Does task (R.left reader.old) (W.held writer.old) (W.held writer.new) (W.has_failed writer.new) result }
{
    match task {
        Task::Alone => evaluate_one(alloc, reader, writer),
        Task::Script(journal, workers) => {
            let options = Options::new(workers, journal);
            serve_script(rt, alloc, task, &options, reader, writer)
        }
    }
}

/// Reads the input as a script. The options are the task's: its workers, and its journal.
fn serve_script<R: Source, W: Sink, T: Threads + Wait + Sync>(
    rt: &T,
    alloc: Global,
    task: Task,
    options: &Options,
    reader: &mut R,
    writer: &mut W,
) -> u8
    requires range { IsInRange task }
    requires under { IsUnder task options.now }
    ensures { Does task (R.left reader.old) (W.held writer.old) (W.held writer.new) (W.has_failed writer.new) result }
{
    let _ = task;
    status_of(serve(rt, alloc, reader, writer, options))
}

/// The status of a script.
fn status_of(end: Result<(), ServeFault>) -> u8
    ensures { result ≡ script_status end }
{
    match end {
        Ok(()) => DONE,
        Err(ServeFault::BadLine(_)) => BAD,
        Err(ServeFault::Read) => FAILED,
        Err(ServeFault::Write) => FAILED,
        Err(ServeFault::Finish(_)) => FAILED,
        Err(ServeFault::NoMemory) => FAILED,
    }
}

/// Reads the input as one test, and writes its summary or why it is refused.
fn evaluate_one<R: Source, W: Sink>(alloc: Global, reader: &mut R, writer: &mut W) -> u8
    ensures { Evaluates (R.left reader.old) (W.held writer.old) (W.held writer.new) (W.has_failed writer.new) result }
{
    match one(alloc, reader, b"", 1, writer) {
        Ok(()) => DONE,
        Err(fault) => {
            if fault.is_refusal() {
                return refuse(&fault, writer);
            }
            FAILED
        }
    }
}

/// Writes why the input is refused.
fn refuse<W: Sink>(fault: &OneFault, writer: &mut W) -> u8
    ensures { IsTold fault.now (W.held writer.old) (W.held writer.new) (W.has_failed writer.new) result }
{
    match write_refusal(fault, writer) {
        Ok(()) => BAD,
        Err(Failed) => FAILED,
    }
}
