//! The printed replies of a book.

ghost use Rattle.std.specs.Prelude.{◌≡◌};
ghost use Rattle.std.specs.List.{flat_map};
ghost use Rattle.report.specs.Writing.{Writes};
ghost use Rattle.report.specs.Replies as texts;

use crate::listing::write_listing;
use crate::parts::write_parts;
use crate::refusal::write_refusal;
use crate::summary::{WriteFault, write_summary};
use cat_model::FileVersion;
use itoa::Buffer;
use journal::Reply;
use slices::{Piece, Verdict};
use wb_text::{Failed, Name, Sink, give_all};

/// Writes the text of a reply.
pub fn write_reply<W: Sink>(reply: &Reply, writer: &mut W) -> Result<(), Failed>
    ensures { Writes W.held W.has_failed writer.old writer.new result (texts.reply_text reply.now) }
{
    match reply {
        Reply::Version(name, version) => write_version(name, *version, writer),
        Reply::Job(job) => write_job(*job, writer),
        Reply::Pending(done, total) => write_counts(b"pending ", *done, *total, writer),
        Reply::Verdict(judged) => write_verdict(judged.verdict(), writer),
        Reply::Piece(piece) => write_piece(piece, writer),
        Reply::Nothing => give_all(writer, b"nothing\n"),
        Reply::Taken(done, total) => write_counts(b"taken ", *done, *total, writer),
        Reply::Freed(claims) => write_freed(*claims, writer),
        Reply::Listed(listing) => write_listing(listing, writer),
        Reply::Done => give_all(writer, b"done\n"),
        Reply::Refused(refusal) => write_refusal(refusal, writer),
    }
}

fn write_version<W: Sink>(name: &Name, version: u32, writer: &mut W) -> Result<(), Failed>
    ensures { Writes W.held W.has_failed writer.old writer.new result (texts.version_text name.now version) }
{
    let mut number = Buffer::new();
    let number = number.format(version).as_bytes();
    write_parts(&[b"version ", name.bytes(), b" ", number, b"\n"], writer)
}

fn write_job<W: Sink>(job: u32, writer: &mut W) -> Result<(), Failed>
    ensures { Writes W.held W.has_failed writer.old writer.new result (texts.job_text job) }
{
    let mut number = Buffer::new();
    let number = number.format(job).as_bytes();
    write_parts(&[b"job ", number, b"\n"], writer)
}

/// Writes how many slices of how many are done, behind a word.
fn write_counts<W: Sink>(
    word: &[u8],
    done: usize,
    total: usize,
    writer: &mut W,
) -> Result<(), Failed>
    ensures { Writes W.held W.has_failed writer.old writer.new result (texts.counts_text word.now done total) }
{
    let mut done_digits = Buffer::new();
    let done_digits = done_digits.format(done).as_bytes();
    let mut total_digits = Buffer::new();
    let total_digits = total_digits.format(total).as_bytes();
    write_parts(&[word, done_digits, b" ", total_digits, b"\n"], writer)
}

fn write_freed<W: Sink>(claims: usize, writer: &mut W) -> Result<(), Failed>
    ensures { Writes W.held W.has_failed writer.old writer.new result (texts.freed_text claims) }
{
    let mut number = Buffer::new();
    let number = number.format(claims).as_bytes();
    write_parts(&[b"freed ", number, b"\n"], writer)
}

fn write_piece<W: Sink>(piece: &Piece, writer: &mut W) -> Result<(), Failed>
    ensures { Writes W.held W.has_failed writer.old writer.new result (texts.piece_text piece.now) }
{
    write_claim(piece, writer)?;
    write_range(piece, writer)
}

/// Writes the numbers of a piece's claim, job and slice.
fn write_claim<W: Sink>(piece: &Piece, writer: &mut W) -> Result<(), Failed>
    ensures { Writes W.held W.has_failed writer.old writer.new result (texts.claim_text piece.now) }
{
    let mut claim = Buffer::new();
    let claim = claim.format(piece.claim()).as_bytes();
    let mut job = Buffer::new();
    let job = job.format(piece.job()).as_bytes();
    let mut slice = Buffer::new();
    let slice = slice.format(piece.slice()).as_bytes();
    write_parts(
        &[b"piece ", claim, b" job ", job, b" slice ", slice],
        writer,
    )
}

/// Writes the numbers of a piece.
fn write_range<W: Sink>(piece: &Piece, writer: &mut W) -> Result<(), Failed>
    ensures { Writes W.held W.has_failed writer.old writer.new result (texts.range_text piece.now) }
{
    let mut from = Buffer::new();
    let from = from.format(piece.from()).as_bytes();
    let mut to = Buffer::new();
    let to = to.format(piece.to()).as_bytes();
    write_parts(&[b" from ", from, b" to ", to, b"\n"], writer)
}

fn write_verdict<W: Sink>(verdict: &Verdict, writer: &mut W) -> Result<(), Failed>
    ensures { Writes W.held W.has_failed writer.old writer.new result (texts.verdict_text verdict.now) }
{
    write_heading(verdict, writer)?;
    write_files(verdict.versions(), writer)?;
    give_all(writer, b"\n")?;
    write_outcome(verdict, writer)
}

/// Writes the test's name and version.
fn write_heading<W: Sink>(verdict: &Verdict, writer: &mut W) -> Result<(), Failed>
    ensures { Writes W.held W.has_failed writer.old writer.new result (texts.heading_text verdict.now) }
{
    let name = verdict.name().bytes();
    let mut version = Buffer::new();
    let version = version.format(verdict.version()).as_bytes();
    write_parts(&[b"verdict ", name, b" ", version], writer)
}

fn write_files<W: Sink>(files: &[FileVersion], writer: &mut W) -> Result<(), Failed>
    ensures { Writes W.held W.has_failed writer.old writer.new result (flat_map texts.file_text files.now) }
{
    for file in files {
        write_file(file, writer)?;
    }
    Ok(())
}

/// Writes a file's name and version.
fn write_file<W: Sink>(file: &FileVersion, writer: &mut W) -> Result<(), Failed>
    ensures { Writes W.held W.has_failed writer.old writer.new result (texts.file_text file.now) }
{
    let mut version = Buffer::new();
    let version = version.format(file.version).as_bytes();
    write_parts(&[b" ", file.name.bytes(), b" ", version], writer)
}

fn write_outcome<W: Sink>(verdict: &Verdict, writer: &mut W) -> Result<(), Failed>
    ensures { Writes W.held W.has_failed writer.old writer.new result (texts.finding_text verdict.now) }
{
    match write_summary(verdict, writer) {
        Ok(()) => Ok(()),
        Err(WriteFault::Write) => Err(Failed),
    }
}
