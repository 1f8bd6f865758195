//! What is stored of a run in files, and read back.

use crate::trouble::{Trouble, told, unreadable};
use outcome::{RowsFault, Status, rows_in};
use std::alloc::{AllocError, Global};
use std::fs;
use std::fs::OpenOptions;
use std::rt::Files;
use suite::{Row, differences};

/// The rows of a file, a line each. Empty lines are none.
pub fn read_rows<R: Files + Eprint + AllocGlobal>(rt: &R, path: &str) -> Result<Vec<Row>, Trouble> {
    match fs::read(rt, path) {
        Ok(text) => rows_or_told(
            rt,
            path,
            rows_in(rt.alloc(), &unix_lines(rt.alloc(), &text)?),
        ),
        Err(error) => Err(unreadable(rt, path, &error)),
    }
}

/// A text without the carriage returns at the ends of its lines.
fn unix_lines(alloc: Global, text: &[u8]) -> Result<Vec<u8>, AllocError> {
    let mut lines = Vec::with_capacity(alloc, text.len())?;
    for (place, byte) in text.iter().enumerate() {
        if *byte != b'\r' || text.get(place + 1) != Some(&b'\n') {
            lines.push(*byte)?;
        }
    }
    Ok(lines)
}

/// The rows of a file. Where it has a line that is none, or two lines that contradict each other, that is told on standard error.
fn rows_or_told<R: Eprint + AllocGlobal>(
    rt: &R,
    path: &str,
    rows: Result<Vec<Row>, RowsFault>,
) -> Result<Vec<Row>, Trouble> {
    match rows {
        Ok(rows) => see_agreeing(rt, path, &rows).and(Ok(rows)),
        Err(RowsFault::NoRow(number)) => Err(no_row(rt, path, number)),
        Err(RowsFault::NoMemory) => Err(Trouble::NoMemory),
    }
}

/// Tells on standard error that a line of a file is no row.
fn no_row<R: Eprint>(rt: &R, path: &str, number: usize) -> Trouble {
    let printed = eprintln!(rt;
        "{path}:{number}: no line of --write-expected or --tsv, whose fields stand between tabs"
    );
    told(Status::Failed, printed)
}

/// Sees that no two rows of one test under one model differ.
fn see_agreeing<R: Eprint + AllocGlobal>(rt: &R, path: &str, rows: &[Row]) -> Result<(), Trouble> {
    let differences = differences(rt.alloc(), rows, rows)?;
    if differences.is_empty() {
        return Ok(());
    }
    let found = std::str::from_utf8(&differences).unwrap_or("");
    let printed = eprintln!(rt; "{path}: it has two lines for one test and model:\n{found}");
    Err(told(Status::Failed, printed))
}

/// Stores rows in a file.
pub fn store_rows<R: Files + Eprint + AllocGlobal>(
    rt: &R,
    path: &str,
    rows: &[Row],
) -> Result<(), Trouble> {
    let alloc = rt.alloc();
    let mut text = Vec::new(alloc);
    for row in rows {
        text.append(&mut row.stored(alloc)?)?;
    }
    write_file(rt, path, &text)
}

/// Writes bytes to a file.
pub fn write_file<R: Files + Eprint>(rt: &R, path: &str, bytes: &[u8]) -> Result<(), Trouble> {
    match fs::write(rt, path, bytes) {
        Ok(()) => Ok(()),
        Err(error) => Err(unreadable(rt, path, &error)),
    }
}

/// Sees that a file can be written, before hours go into what is to be written there. It makes one that is empty where there is none.
pub fn see_writable<R: Files + Eprint>(rt: &R, path: &str) -> Result<(), Trouble> {
    match OpenOptions::new().append(true).create(true).open(rt, path) {
        Ok(_) => Ok(()),
        Err(error) => Err(unreadable(rt, path, &error)),
    }
}
