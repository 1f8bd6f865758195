//! Lines and columns.

ghost use Rattle.std.specs.Prelude.{◌≡◌, ◌≢◌, ℕ, ◌<◌, ◌≤◌, ◌-◌, length, slice_index};
ghost use Rattle.std.specs.List.{count_by};
ghost use Rattle.places.specs.Lines.{is_feed, IsPlaceOf};

use memchr::{memchr, memrchr};

/// A place in a text: its line and column, both from 1, and the bytes of its line.
#[derive(Clone, Copy)]
pub struct Place<'a> {
    pub line: usize,
    pub column: usize,
    pub source: &'a [u8],
}

impl<'a> Place<'a> {
    /// The place behind so many bytes of a text.
    pub fn of(text: &'a [u8], offset: usize) -> Place<'a>
        ensures { IsPlaceOf text.now offset result }
    {
        let offset = offset.min(text.len());
        let (before, behind) = text.split_at(offset);
        let from = line_start(before);
        let to = offset + line_end(behind);
        Place {
            line: feeds(before) + 1,
            column: offset - from + 1,
            source: &text[from..to],
        }
    }
}

/// How many line feeds there are.
fn feeds(bytes: &[u8]) -> usize
    ensures { result ≡ count_by is_feed bytes.now }
{
    let mut feeds = 0usize;
    for byte in bytes {
        if *byte == b'\n' {
            feeds += 1;
        }
    }
    feeds
}

/// Where the last line begins.
fn line_start(bytes: &[u8]) -> usize
    ensures within { result ≤ length bytes.now }
    ensures first { 0 < result → slice_index bytes.now (result - 1) ≡ 10 }
    ensures unbroken { (k : ℕ) → result ≤ k → k < length bytes.now → slice_index bytes.now k ≢ 10 }
{
    match memrchr(b'\n', bytes) {
        Some(at) => at + 1,
        None => 0,
    }
}

/// Where the first line ends.
fn line_end(bytes: &[u8]) -> usize
    ensures within { result ≤ length bytes.now }
    ensures last { result < length bytes.now → slice_index bytes.now result ≡ 10 }
    ensures unbroken { (k : ℕ) → k < result → slice_index bytes.now k ≢ 10 }
{
    match memchr(b'\n', bytes) {
        Some(at) => at,
        None => bytes.len(),
    }
}
