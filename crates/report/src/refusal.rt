//! The printed refusals of a book.

ghost use Rattle.std.specs.Prelude.{◌≡◌, decimal};
ghost use Rattle.report.specs.Writing.{Writes};
ghost use Rattle.report.specs.Refusals as texts;

use crate::parts::{write_bytes, write_parts};
use candidates::SpaceFault;
use cat_model::ModelFault;
use cat_syntax::CatFault;
use itoa::Buffer;
use journal::{Refusal, Replacement, SourceKind};
use litmus_c::TestFault;
use wb_text::{Failed, Sink};

/// Writes the line of a refusal.
pub fn write_refusal<W: Sink>(refusal: &Refusal, writer: &mut W) -> Result<(), Failed>
    ensures { Writes W.held W.has_failed writer.old writer.new result (texts.refusal_text refusal.now) }
{
    write_bytes(b"refused ", writer)?;
    write_cause(refusal, writer)?;
    write_bytes(b"\n", writer)
}

/// Writes the number, the name and the fields of a refusal.
fn write_cause<W: Sink>(refusal: &Refusal, writer: &mut W) -> Result<(), Failed>
    ensures { Writes W.held W.has_failed writer.old writer.new result (texts.cause_text refusal.now) }
{
    match refusal {
        Refusal::Closed => write_bytes(b"71 Closed", writer),
        Refusal::ReadingTest(fault) => write_reading_test(fault, writer),
        Refusal::ReadingCat(fault) => write_reading_cat(fault, writer),
        Refusal::NoTest(name) => write_field(b"73 NoTest", name.bytes(), writer),
        Refusal::Model(fault) => write_model(fault, writer),
        Refusal::Space(fault) => write_space(*fault, writer),
        Refusal::JobsFull => write_bytes(b"76 JobsFull", writer),
        Refusal::NoJob(job) => write_numbered(b"77 NoJob", *job as usize, writer),
        Refusal::NoClaim(claim) => write_numbered(b"78 NoClaim", *claim as usize, writer),
        Refusal::Replaced(replacement) => write_replacement(replacement, writer),
        Refusal::Stranger(claim) => write_numbered(b"80 Stranger", *claim as usize, writer),
        Refusal::VersionsSpent(name) => write_field(b"81 VersionsSpent", name.bytes(), writer),
        Refusal::ClaimsSpent => write_bytes(b"82 ClaimsSpent", writer),
    }
}

/// Writes a field behind a label.
fn write_field<W: Sink>(label: &[u8], field: &[u8], writer: &mut W) -> Result<(), Failed>
    ensures { Writes W.held W.has_failed writer.old writer.new result (texts.with_field label.now field.now) }
{
    write_parts(&[label, b" ", field], writer)
}

/// Writes a number behind a label.
fn write_numbered<W: Sink>(label: &[u8], number: usize, writer: &mut W) -> Result<(), Failed>
    ensures { Writes W.held W.has_failed writer.old writer.new result (texts.with_field label.now (decimal number)) }
{
    let mut digits = Buffer::new();
    write_field(label, digits.format(number).as_bytes(), writer)
}

/// Writes whose version is no longer a job's, and its version now.
fn write_replacement<W: Sink>(replacement: &Replacement, writer: &mut W) -> Result<(), Failed>
    ensures { Writes W.held W.has_failed writer.old writer.new result (texts.replacement_text replacement.now) }
{
    let kind = kind_text(replacement.kind);
    let name = replacement.name.bytes();
    let mut version = Buffer::new();
    let version = version.format(replacement.version).as_bytes();
    write_parts(&[b"79 Replaced ", kind, b" ", name, b" ", version], writer)
}

fn kind_text<'a>(kind: SourceKind) -> &'a [u8]
    ensures { result.now ≡ texts.kind_text kind }
{
    match kind {
        SourceKind::Test => b"test",
        SourceKind::Cat => b"cat",
    }
}

fn write_reading_test<W: Sink>(fault: &TestFault, writer: &mut W) -> Result<(), Failed>
    ensures { Writes W.held W.has_failed writer.old writer.new result (texts.reading_test_text fault.now) }
{
    write_bytes(b"72 Reading ", writer)?;
    write_test_fault(fault, writer)
}

/// Writes why a text is no test: its label and its fields.
pub fn write_test_fault<W: Sink>(fault: &TestFault, writer: &mut W) -> Result<(), Failed>
    ensures { Writes W.held W.has_failed writer.old writer.new result (texts.test_fault_text fault.now) }
{
    let label = fault.label().as_bytes();
    match fault {
        TestFault::Text(cause) => write_field(label, cause.label().as_bytes(), writer),
        TestFault::Syntax(offset) => write_numbered(label, *offset, writer),
        TestFault::Unsupported(word) => write_field(label, word.bytes(), writer),
        _ => write_bytes(label, writer),
    }
}

fn write_reading_cat<W: Sink>(fault: &CatFault, writer: &mut W) -> Result<(), Failed>
    ensures { Writes W.held W.has_failed writer.old writer.new result (texts.reading_cat_text fault.now) }
{
    write_bytes(b"72 Reading ", writer)?;
    write_cat_fault(fault, writer)
}

/// Writes why a text is no cat file: its label and its fields.
pub fn write_cat_fault<W: Sink>(fault: &CatFault, writer: &mut W) -> Result<(), Failed>
    ensures { Writes W.held W.has_failed writer.old writer.new result (texts.cat_fault_text fault.now) }
{
    let label = fault.label().as_bytes();
    match fault {
        CatFault::Text(cause) => write_field(label, cause.label().as_bytes(), writer),
        CatFault::Syntax(offset) => write_numbered(label, *offset, writer),
        CatFault::Unsupported(word) => write_field(label, word.bytes(), writer),
        _ => write_bytes(label, writer),
    }
}

fn write_model<W: Sink>(fault: &ModelFault, writer: &mut W) -> Result<(), Failed>
    ensures { Writes W.held W.has_failed writer.old writer.new result (texts.model_text fault.now) }
{
    write_bytes(b"74 Model ", writer)?;
    write_model_fault(fault, writer)
}

/// Writes why files give no model: its label and its fields.
pub fn write_model_fault<W: Sink>(fault: &ModelFault, writer: &mut W) -> Result<(), Failed>
    ensures { Writes W.held W.has_failed writer.old writer.new result (texts.model_fault_text fault.now) }
{
    let label = fault.label().as_bytes();
    match fault {
        ModelFault::NoCat(name) => write_field(label, name.bytes(), writer),
        ModelFault::NoInclude(name) => write_field(label, name.bytes(), writer),
        ModelFault::IncludeCycle(name) => write_field(label, name.bytes(), writer),
        ModelFault::Unbound(name) => write_field(label, name.bytes(), writer),
        ModelFault::WrongSort(name) => write_field(label, name.bytes(), writer),
        ModelFault::NotMonotone(name) => write_field(label, name.bytes(), writer),
        ModelFault::CallsTooLarge(name) => write_field(label, name.bytes(), writer),
        _ => write_bytes(label, writer),
    }
}

fn write_space<W: Sink>(fault: SpaceFault, writer: &mut W) -> Result<(), Failed>
    ensures { Writes W.held W.has_failed writer.old writer.new result (texts.space_text fault) }
{
    write_bytes(b"75 Space ", writer)?;
    write_space_fault(fault, writer)
}

/// Writes why a test's candidates aren't numbered: its label and its fields.
pub fn write_space_fault<W: Sink>(fault: SpaceFault, writer: &mut W) -> Result<(), Failed>
    ensures { Writes W.held W.has_failed writer.old writer.new result (texts.space_fault_text fault) }
{
    let label = fault.label().as_bytes();
    match fault {
        SpaceFault::TooManyRuns(thread) => write_numbered(label, thread, writer),
        _ => write_bytes(label, writer),
    }
}
