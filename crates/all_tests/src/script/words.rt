//! Tests of the words of the command line.

use crate::rows::expect;
use program::{Task, read_task};
use std::alloc::{AllocError, Global};

/// A name, the words, and how begins what is told of them: what they ask for, with a full stop behind it, or the status of their fault, where
/// its text goes, and the text.
const ROWS: &str = "
=== words_are_read: no word
bench
journal 100000, workers 0.
=== words_are_read: least journal
bench --journal 1
journal 1, workers 0.
=== words_are_read: largest journal
bench --journal=1000000
journal 1000000, workers 0.
=== words_are_read: one worker
bench --workers 1
journal 100000, workers 1.
=== words_are_read: most workers
bench --workers=8 --journal=7
journal 7, workers 8.
=== words_are_read: alone
bench --alone
alone.
=== words_are_read: help
bench --help
status 0,
=== words_are_read: journal of none
bench --journal 0
status 2,
=== words_are_read: journal too large
bench --journal 1000001
status 2,
=== words_are_read: nine workers
bench --workers 9
status 2,
=== words_are_read: workers twice
bench --workers=1 --workers=2
status 2,
=== words_are_read: threads
bench --threads 1
status 2,
=== words_are_read: a file
bench SB
status 2,
=== refused_words_have_a_text: --help
bench --help
status 0, on stdout: Evaluates litmus tests

=== refused_words_have_a_text: --workers 9
bench --workers 9
status 2, on stderr: error: 
=== refused_words_have_a_text: --journal 0
bench --journal 0
status 2, on stderr: error: 
=== refused_words_have_a_text: SB
bench SB
status 2, on stderr: error: ";

fn push_words(alloc: Global, all: &mut Vec<String>, words: &str) -> Result<(), AllocError> {
    for word in words.split_whitespace() {
        all.push(String::from_str(alloc, word)?)?;
    }
    Ok(())
}

/// The words of a line, of which the first is the program's name.
pub fn called(alloc: Global, words: &str) -> Result<Vec<String>, AllocError> {
    let mut all = Vec::new(alloc);
    push_words(alloc, &mut all, words).and(Ok(all))
}

/// What is told of words.
fn told(alloc: Global, words: &[String]) -> Result<String, AllocError> {
    match read_task(alloc, words) {
        Ok(Task::Alone) => String::from_str(alloc, "alone."),
        Ok(Task::Script(journal, workers)) => {
            format!(in alloc; "journal {journal}, workers {workers}.")
        }
        Err(error) => {
            let place = if error.use_stderr() {
                "stderr"
            } else {
                "stdout"
            };
            let status = error.exit_code();
            format!(in alloc; "status {status}, on {place}: {error}")
        }
    }
}

/// Whether what is told of words begins so.
fn begins_so(alloc: Global, words: &[String], start: &str) -> bool {
    match told(alloc, words) {
        Ok(text) => text.as_str().starts_with(start),
        Err(AllocError) => false,
    }
}

/// Whether what is told of the words of a line begins so.
pub fn are_told(alloc: Global, words: &str, start: &str) -> bool {
    match called(alloc, words) {
        Ok(all) => begins_so(alloc, &all, start),
        Err(AllocError) => false,
    }
}

fn holds(alloc: Global, row: &str) -> bool {
    let (_, row) = row.split_once('\n').unwrap_or((row, ""));
    match row.split_once('\n') {
        Some((words, start)) => are_told(alloc, words, start),
        None => false,
    }
}

#[test]
fn words_are_read(rt: HostRuntime) {
    for row in ROWS.split("\n=== ").skip(1) {
        expect(&rt, row, holds(rt.alloc(), row));
    }
}
