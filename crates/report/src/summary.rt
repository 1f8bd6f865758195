//! The printed summary of a verdict.

ghost use Rattle.std.specs.Prelude.{◌≡◌, ◌++◌, ◌∷◌, [], List, IfOk, OnErr, OnOk, true, length, codes, decimal};
ghost use Rattle.std.specs.Io.KnownBytes.{Appends};
ghost use Rattle.std.specs.List.{flat_map};
ghost use Rattle.wb_text.specs.Memory.{AppendsPrefix};
ghost use Rattle.report.specs.Labels.{write_label};
ghost use Rattle.report.specs.Writing.{Writes};
ghost use Rattle.report.specs.Texts as texts;

use crate::parts::{write_bytes, write_parts};
use crate::propositions::write_prop;
use crate::states::write_states;
use conditions::Kind;
use itoa::Buffer;
use slices::{Finding, Verdict};
use thiserror::Error;
use wb_text::{Failed, Name, Sink};

/// Why a summary was not written whole.
#[derive(Clone, Copy, Debug, Drop, PartialEq, Eq, Error)]
#[error("{}", self.label())]
pub enum WriteFault {
    /// The writer failed.
    Write,
}

impl WriteFault {
    /// The number and the name of this fault.
    pub fn label(self) -> &'static str
        ensures { result.now ≡ write_label self }
    {
        match self {
            WriteFault::Write => "95 Write",
        }
    }
}

/// Writes the summary, or a prefix of it where the writer fails. It takes no memory.
pub fn write_summary<W: Sink>(verdict: &Verdict, writer: &mut W) -> Result<(), WriteFault>
    ensures written { OnOk result (Appends (W.held writer.old) (W.held writer.new) (texts.Text verdict.now.finding)) }
    ensures part { OnErr result (AppendsPrefix (W.held writer.old) (W.held writer.new) (texts.Text verdict.now.finding)) }
    ensures marked { OnErr result (W.has_failed writer.new ≡ true) }
{
    match write_lines(verdict.finding(), writer) {
        Ok(()) => Ok(()),
        Err(Failed) => Err(WriteFault::Write),
    }
}

fn write_lines<W: Sink>(finding: &Finding, writer: &mut W) -> Result<(), Failed>
    ensures { Writes W.held W.has_failed writer.old writer.new result (texts.Text finding.now) }
{
    write_name(finding, writer)?;
    write_count(finding, writer)?;
    write_states(finding.places(), finding.states(), writer)?;
    write_answer(finding, writer)?;
    write_bytes(b"Witnesses\n", writer)?;
    write_counts(finding, writer)?;
    write_flags(finding.flags(), writer)?;
    write_condition(finding, writer)?;
    write_observation(finding, writer)
}

fn write_name<W: Sink>(finding: &Finding, writer: &mut W) -> Result<(), Failed>
    ensures { Writes W.held W.has_failed writer.old writer.new result
        (texts.name_line finding.now) }
{
    let kind = kind_text(finding.kind());
    write_parts(
        &[b"Test ", finding.name().bytes(), b" ", kind, b"\n"],
        writer,
    )
}

fn write_count<W: Sink>(finding: &Finding, writer: &mut W) -> Result<(), Failed>
    ensures { Writes W.held W.has_failed writer.old writer.new result
        (texts.count_line finding.now) }
{
    let mut count = Buffer::new();
    let count = count.format(finding.states().len()).as_bytes();
    write_parts(&[b"States ", count, b"\n"], writer)
}

fn write_answer<W: Sink>(finding: &Finding, writer: &mut W) -> Result<(), Failed>
    ensures { Writes W.held W.has_failed writer.old writer.new result
        (texts.answer_line finding.now) }
{
    write_bytes(if finding.ok() { b"Ok\n" } else { b"No\n" }, writer)
}

fn write_counts<W: Sink>(finding: &Finding, writer: &mut W) -> Result<(), Failed>
    ensures { Writes W.held W.has_failed writer.old writer.new result
        (texts.counts_line finding.now) }
{
    let mut positive = Buffer::new();
    let positive = positive.format(finding.positive()).as_bytes();
    let mut negative = Buffer::new();
    let negative = negative.format(finding.negative()).as_bytes();
    write_parts(
        &[b"Positive: ", positive, b" Negative: ", negative, b"\n"],
        writer,
    )
}

fn write_flags<W: Sink>(flags: &[Name], writer: &mut W) -> Result<(), Failed>
    ensures { Writes W.held W.has_failed writer.old writer.new result
        (flat_map texts.flag_line flags.now) }
{
    for flag in flags {
        write_flag(flag, writer)?;
    }
    Ok(())
}

fn write_flag<W: Sink>(flag: &Name, writer: &mut W) -> Result<(), Failed>
    ensures { Writes W.held W.has_failed writer.old writer.new result (texts.flag_line flag.now) }
{
    write_parts(&[b"Flag ", flag.bytes(), b"\n"], writer)
}

fn write_condition<W: Sink>(finding: &Finding, writer: &mut W) -> Result<(), Failed>
    ensures { Writes W.held W.has_failed writer.old writer.new result
        (texts.condition_line finding.now) }
{
    write_parts(
        &[b"Condition ", quantifier_text(finding.kind()), b" ("],
        writer,
    )?;
    write_prop(finding.prop(), writer)?;
    write_bytes(b")\n", writer)
}

fn write_observation<W: Sink>(finding: &Finding, writer: &mut W) -> Result<(), Failed>
    ensures { Writes W.held W.has_failed writer.old writer.new result
        (texts.observation_line finding.now) }
{
    let mut positive = Buffer::new();
    let positive = positive.format(finding.positive()).as_bytes();
    let mut negative = Buffer::new();
    let negative = negative.format(finding.negative()).as_bytes();
    let name = finding.name().bytes();
    let word = finding.word().as_bytes();
    write_parts(
        &[
            b"Observation ",
            name,
            b" ",
            word,
            b" ",
            positive,
            b" ",
            negative,
            b"\n",
        ],
        writer,
    )
}

fn kind_text<'a>(kind: Kind) -> &'a [u8]
    ensures { result.now ≡ texts.kind_text kind }
{
    match kind {
        Kind::Exists => b"Allowed",
        Kind::NotExists => b"Forbidden",
        Kind::Forall => b"Required",
    }
}

fn quantifier_text(kind: Kind) -> &'static [u8]
    ensures { result.now ≡ texts.quantifier_text kind }
{
    match kind {
        Kind::Exists => b"exists",
        Kind::NotExists => b"~exists",
        Kind::Forall => b"forall",
    }
}
