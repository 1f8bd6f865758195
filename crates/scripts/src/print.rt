//! The printed answers of a script.

ghost use Rattle.std.specs.Prelude.{◌≡◌, ◌++◌, IfSome, codes, decimal};
ghost use Rattle.report.specs.Replies.{reply_text};
ghost use Rattle.report.specs.Writing.{Writes};
ghost use Rattle.scripts.specs.Serving.{bad_line_text, cause_text, finish_text, not_taken_text, worked_text};

use crate::outcome::Sums;
use book::{Refused, Reply};
use itoa::Buffer;
use report::{write_parts, write_reply};
use sessions::FinishCause;
use std::alloc::Global;
use wb_text::{Failed, MemSink, Sink, give_all};

/// The most bytes that are given at once.
const PAGE: usize = 65_536;

/// Gives the text of a reply to the writer, at once where it fits a page and there is memory for one.
pub fn give_reply<W: Sink>(alloc: Global, reply: &Reply, writer: &mut W) -> Result<(), Failed>
    ensures { Writes W.held W.has_failed writer.old writer.new result (reply_text reply.now) }
{
    match page(alloc, reply) {
        Some(page) => give_all(writer, page.bytes()),
        None => write_reply(reply, writer),
    }
}

/// The text of a reply in memory.
fn page(alloc: Global, reply: &Reply) -> Option<MemSink>
    ensures { IfSome result (λ page. page.bytes ≡ reply_text reply.now) }
{
    let Ok(mut page) = MemSink::new(alloc, PAGE) else {
        return None;
    };
    match write_reply(reply, &mut page) {
        Ok(()) => Some(page),
        Err(Failed) => None,
    }
}

pub fn write_not_taken<W: Sink>(why: Refused, writer: &mut W) -> Result<(), Failed>
    ensures { Writes W.held W.has_failed writer.old writer.new result (not_taken_text why) }
{
    match why {
        Refused::JournalFull => give_all(writer, b"not taken JournalFull\n"),
        Refused::NoMemory => give_all(writer, b"not taken NoMemory\n"),
    }
}

/// Writes what the workers counted.
pub fn write_worked<W: Sink>(sums: Sums, writer: &mut W) -> Result<(), Failed>
    ensures { Writes W.held W.has_failed writer.old writer.new result (worked_text sums.evaluated sums.given_back sums.refused) }
{
    let mut evaluated = Buffer::new();
    let evaluated = evaluated.format(sums.evaluated).as_bytes();
    let mut given_back = Buffer::new();
    let given_back = given_back.format(sums.given_back).as_bytes();
    let mut refused = Buffer::new();
    let refused = refused.format(sums.refused).as_bytes();
    let parts: [&[u8]; 7] = [
        b"worked ", evaluated, b" ", given_back, b" ", refused, b"\n",
    ];
    write_parts(&parts, writer)
}

/// Writes the last line of a script whose journal has so many entries.
pub fn write_finish<W: Sink>(entries: usize, writer: &mut W) -> Result<(), Failed>
    ensures { Writes W.held W.has_failed writer.old writer.new result (finish_text entries) }
{
    let mut entry_count = Buffer::new();
    let entry_count = entry_count.format(entries).as_bytes();
    write_parts(&[b"finish ok ", entry_count, b"\n"], writer)
}

/// Writes why the receipts of the passes are not the journal.
pub fn write_cause<W: Sink>(cause: FinishCause, writer: &mut W) -> Result<(), Failed>
    ensures { Writes W.held W.has_failed writer.old writer.new result (cause_text cause) }
{
    match cause {
        FinishCause::MissingPass(seat) => write_number(
            b"finish 91 MissingPass ",
            seat as u32,
            writer,
        ),
        FinishCause::Mismatch(place) => write_number(b"finish 92 Mismatch ", place, writer),
    }
}

/// Writes that the line of a number is bad.
pub fn write_bad_line<W: Sink>(line: u32, writer: &mut W) -> Result<(), Failed>
    ensures { Writes W.held W.has_failed writer.old writer.new result (bad_line_text line) }
{
    write_number(b"bad line ", line, writer)
}

/// Writes a line of some words and a number.
fn write_number<W: Sink>(words: &[u8], number: u32, writer: &mut W) -> Result<(), Failed>
    ensures { Writes W.held W.has_failed writer.old writer.new result (words.now ++ decimal number ++ codes "\n") }
{
    let mut buffer = Buffer::new();
    let number = buffer.format(number).as_bytes();
    write_parts(&[words, number, b"\n"], writer)
}
