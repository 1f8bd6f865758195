//! Runs a script of litmus tests at a desk, or evaluates one test.
#![tactic(auto)]

ghost use Rattle.program.specs.Words.{IsInRange};

mod lines;

use crate::lines::Lines;
use clap::error::ErrorKind;
use program::{BAD, FAILED, Task, do_task, read_task};
use std::io::{BufWriter, IsTerminal, Read, Write};
use std::process::ExitCode;
use std::sync::Wait;
use std::thread::Threads;
use std::{env, io};
use wb_text::{ReadSource, Source, WriteSink};

/// Ends with 0, with 2 where the words, a line of the script or the test is bad, and with 1 where reading, writing or
/// memory fails.
fn main(rt: HostRuntime) -> ExitCode {
    let words: Vec<String> = match env::args(&rt) {
        Ok(words) => match words.collect(rt.alloc()) {
            Ok(words) => words,
            Err(_) => return ExitCode::FAILURE,
        },
        Err(error) if error.kind() == io::ErrorKind::OutOfMemory => return ExitCode::FAILURE,
        Err(_) => return reject_bytes(&rt),
    };
    match read_task(rt.alloc(), words.as_slice()) {
        Ok(task) => ExitCode::from(perform(&rt, task, rt.stdin().is_terminal())),
        Err(error) if error.kind() == ErrorKind::OutOfMemory => ExitCode::FAILURE,
        Err(error) => match error.print(&rt) {
            Ok(()) => ExitCode::from(error.exit_code() as u8),
            Err(_) => ExitCode::FAILURE,
        },
    }
}

/// Says that a word isn't UTF-8.
fn reject_bytes(rt: &impl Eprint) -> ExitCode {
    match eprintln!(rt; "error: a word of the command line is not UTF-8") {
        Ok(()) => ExitCode::from(BAD),
        Err(_) => ExitCode::FAILURE,
    }
}

/// Does a task over the standard input and output, answers the status, and says on standard error what else a person may want to know, who may
/// type the input.
fn perform(
    rt: &(impl Input + Print + Eprint + AllocGlobal + Threads + Wait + Sync),
    task: Task,
    is_typed: bool,
) -> u8
    requires { IsInRange task }
{
    let is_script = matches!(&task, Task::Script(_, _));
    if is_typed {
        tell(
            rt,
            if is_script {
                SCRIPT_WANTED
            } else {
                TEST_WANTED
            },
        );
    }
    let Ok(front) = front_of(rt) else {
        tell(rt, FAILURE);
        return FAILED;
    };
    let status = do_whole(rt, task, front.as_slice().chain(rt.reader()));
    if status == FAILED {
        tell(rt, FAILURE);
    } else if status == BAD && is_script && front.as_slice() == b"C ".as_slice() {
        tell(rt, TEST_GIVEN);
    }
    status
}

const SCRIPT_WANTED: &str =
    "bench: a script is read from standard input; yofetsug FILE judges a test, and bench --help says more";

const TEST_WANTED: &str = "bench: a test is read from standard input";

const TEST_GIVEN: &str =
    "bench: this is a litmus test and no script; yofetsug FILE judges it, or bench --alone < FILE";

const FAILURE: &str = "bench: reading or writing failed, or memory ran out";

/// Says something on standard error, where that can be written.
fn tell(rt: &impl Eprint, sentence: &str) {
    let _ = eprintln!(rt; "{sentence}");
}

/// The first two bytes of the input, or fewer where it ends before.
fn front_of(rt: &(impl Input + AllocGlobal)) -> io::Result<Vec<u8>> {
    let mut front = Vec::new(rt.alloc());
    rt.reader().take(2).read_to_end(&mut front)?;
    Ok(front)
}

/// Does a task over an input and the standard output, and answers the status. What is written of one test is kept back to the end,
/// and each line of a script's answers is sent on at once.
fn do_whole<R: Read + Drop>(
    rt: &(impl Print + AllocGlobal + Threads + Wait + Sync),
    task: Task,
    input: R,
) -> u8
    requires { IsInRange task }
{
    let mut reader = ReadSource::new(input);
    let Ok(buffered) = BufWriter::new(rt.alloc(), io::writer(rt)) else {
        return FAILED;
    };
    if matches!(&task, Task::Script(_, _)) {
        return do_over(rt, task, &mut reader, Lines { buffered });
    }
    do_over(rt, task, &mut reader, buffered)
}

/// Does a task, and sends on what the writer then holds back.
fn do_over<S: Source, W: Write + Drop>(
    rt: &(impl AllocGlobal + Threads + Wait + Sync),
    task: Task,
    reader: &mut S,
    writer: W,
) -> u8
    requires { IsInRange task }
{
    let mut writer = WriteSink::new(writer);
    let status = do_task(rt, rt.alloc(), task, reader, &mut writer);
    match writer.flush() {
        Ok(()) => status,
        Err(_) => FAILED,
    }
}
