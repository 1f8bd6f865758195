//! The printed listings of a book.

ghost use Rattle.std.specs.Prelude.{◌≡◌};
ghost use Rattle.std.specs.List.{flat_map};
ghost use Rattle.report.specs.Writing.{Writes};
ghost use Rattle.report.specs.Listings as texts;

use crate::parts::{write_bytes, write_parts};
use itoa::Buffer;
use journal::{JobRow, Listing, Loaded};
use wb_text::{Failed, Sink};

/// Writes what is loaded and the jobs, a line for each, and the line `end`.
pub fn write_listing<W: Sink>(listing: &Listing, writer: &mut W) -> Result<(), Failed>
    ensures { Writes W.held W.has_failed writer.old writer.new result (texts.listing_text listing.now) }
{
    write_all_loaded(b"test ", listing.tests(), writer)?;
    write_all_loaded(b"cat ", listing.cats(), writer)?;
    write_jobs(listing.jobs(), writer)?;
    write_bytes(b"end\n", writer)
}

/// Writes a line for each name, behind a word.
fn write_all_loaded<W: Sink>(word: &[u8], all: &[Loaded], writer: &mut W) -> Result<(), Failed>
    ensures { Writes W.held W.has_failed writer.old writer.new result (flat_map (texts.loaded_text word.now) all.now) }
{
    for loaded in all {
        write_loaded(word, loaded, writer)?;
    }
    Ok(())
}

/// Writes a name and its version behind a word.
fn write_loaded<W: Sink>(word: &[u8], loaded: &Loaded, writer: &mut W) -> Result<(), Failed>
    ensures { Writes W.held W.has_failed writer.old writer.new result (texts.loaded_text word.now loaded.now) }
{
    let mut version = Buffer::new();
    let version = version.format(loaded.version).as_bytes();
    write_parts(&[word, loaded.name.bytes(), b" ", version, b"\n"], writer)
}

/// Writes a line for each job.
fn write_jobs<W: Sink>(jobs: &[JobRow], writer: &mut W) -> Result<(), Failed>
    ensures { Writes W.held W.has_failed writer.old writer.new result (flat_map texts.job_text jobs.now) }
{
    for job in jobs {
        write_job(job, writer)?;
    }
    Ok(())
}

/// Writes the line of a job.
fn write_job<W: Sink>(job: &JobRow, writer: &mut W) -> Result<(), Failed>
    ensures { Writes W.held W.has_failed writer.old writer.new result (texts.job_text job.now) }
{
    write_asked(job, writer)?;
    write_counts(job, writer)
}

/// Writes the number of a job, its test and its model's root.
fn write_asked<W: Sink>(job: &JobRow, writer: &mut W) -> Result<(), Failed>
    ensures { Writes W.held W.has_failed writer.old writer.new result (texts.asked_text job.now) }
{
    let mut number = Buffer::new();
    let number = number.format(job.number).as_bytes();
    let test = job.test.bytes();
    let cat = job.cat.bytes();
    write_parts(&[b"job ", number, b" ", test, b" ", cat], writer)
}

/// Writes how many slices of how many are returned.
fn write_counts<W: Sink>(job: &JobRow, writer: &mut W) -> Result<(), Failed>
    ensures { Writes W.held W.has_failed writer.old writer.new result (texts.counts_text job.now) }
{
    let mut done = Buffer::new();
    let done = done.format(job.done).as_bytes();
    let mut total = Buffer::new();
    let total = total.format(job.total).as_bytes();
    write_parts(&[b" ", done, b" ", total, b"\n"], writer)
}
