//! What tests of the book and of scripts share: what a test fails with, and the parts of a row.

use crate::rows::again;
use book::Limits;
use std::alloc::{AllocError, Global};
use std::fmt::Display;
use wb_text::MemSink;

/// An empty sink of so much room.
pub fn sink(alloc: Global, room: usize) -> Result<MemSink, AllocError> {
    again!(AllocError, MemSink::new(alloc, room))
}

/// Whether a value is printed so.
pub fn is_shown<D: Display>(alloc: Global, value: &D, wanted: &str) -> bool {
    match again!(_, value.to_string(alloc)) {
        Ok(text) => text.as_str() == wanted,
        Err(_) => false,
    }
}

/// Whether these bytes are just so many at the front of a text.
pub fn is_cut_off(bytes: &[u8], text: &str, room: usize) -> bool {
    bytes.len() == room && text.as_bytes().starts_with(bytes)
}

/// What is given in a row, behind its name, what stands behind `+++`, and what is wanted.
pub fn parts_of(row: &str) -> Option<(&str, &str, &str)> {
    let (_, row) = row.split_once('\n')?;
    let (given, row) = row.split_once("+++ ")?;
    let (call, wanted) = row.split_once("---\n")?;
    Some((given, call, wanted))
}

/// The number behind a word of a call.
pub fn number_behind(call: &str, word: &str) -> Option<u32> {
    let (_, rest) = call.split_once(word)?;
    let (number, _) = rest.split_once(' ').unwrap_or((rest, ""));
    number.parse().ok()
}

/// The limits that a call names. Each other is 100.
pub fn limits_of(call: &str) -> Limits {
    Limits {
        journal: number_behind(call, " journal ").unwrap_or(100),
        versions: number_behind(call, " versions ").unwrap_or(100),
        claims: number_behind(call, " claims ").unwrap_or(100),
    }
}
