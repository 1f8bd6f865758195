//! Judges litmus tests under cat models.
#![tactic(auto)]

mod deadline;
mod meter;
mod run;
mod session;
mod words;

use clap::Error;
use clap::error::ErrorKind;
use inputs::Trouble;
use outcome::Status;
use session::{Reach, run_all};
use std::io::IsTerminal;
use std::process::ExitCode;
use std::{env, io};
use words::{read_words, words_of};

/// Ends with 0; with 1 where a file, memory or a write fails; with 2 where something is refused, or the words are bad; with 3 where something is not
/// as it is expected.
fn main(rt: HostRuntime) -> ExitCode {
    let shows = rt.stderr().is_terminal();
    match env::args(&rt) {
        Ok(words) => match words.collect::<Vec<String>>(rt.alloc()) {
            Ok(words) => run_words(&rt, &words, shows),
            Err(_) => ExitCode::FAILURE,
        },
        Err(_) => match eprintln!(rt; "error: a word of the command line is not UTF-8") {
            Ok(()) => ExitCode::from(Status::Refused.code()),
            Err(_) => ExitCode::FAILURE,
        },
    }
}

/// Does what the words ask for.
fn run_words<R: Reach>(rt: &R, words: &[String], shows: bool) -> ExitCode {
    match read_words(rt.alloc(), words) {
        Ok(matches) => end(rt, run_all(rt, &words_of(&matches), shows)),
        Err(error) => answer(rt, &error),
    }
}

/// Prints what clap says of the words: what is wrong with them, or the help that they ask for.
fn answer<R: Print + Eprint>(rt: &R, said: &Error) -> ExitCode {
    if said.kind() == ErrorKind::OutOfMemory {
        return ExitCode::FAILURE;
    }
    match said.print(rt) {
        Ok(()) => ExitCode::from(said.exit_code() as u8),
        Err(error) => end(rt, Err(Trouble::Write(error))),
    }
}

/// The status, once it is told why the program ends early, if it does.
fn end(rt: &impl Eprint, ended: Result<Status, Trouble>) -> ExitCode {
    match ended {
        Ok(status) | Err(Trouble::Told(status)) => ExitCode::from(status.code()),
        // Whoever reads the output has had enough.
        Err(Trouble::Write(error)) if error.kind() == io::ErrorKind::BrokenPipe =>
            ExitCode::SUCCESS,
        Err(trouble) => {
            // Where standard error fails, too, nobody can be told.
            let _ = eprintln!(rt; "yofetsug: {trouble}");
            ExitCode::FAILURE
        }
    }
}
