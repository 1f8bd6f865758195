//! The line, and the row of fields, that tell a verdict.

ghost use Rattle.std.specs.Prelude.{◌≡◌, ◌++◌, IfOk, OnOk};
ghost use Rattle.report.specs.Texts.{kind_text};
ghost use Rattle.suite.specs.Lines as texts;

use crate::case::Case;
use crate::text::{push_listed, push_names, push_number, push_parts};
use conditions::Kind;
use slices::{Finding, Verdict};
use std::alloc::{AllocError, Global};

/// A line for people: a test's path, its name, `Ok` or `No`, the word, both counts and the flags, with blanks between.
pub fn line_of(alloc: Global, path: &[u8], verdict: &Verdict) -> Result<Vec<u8>, AllocError>
    ensures { IfOk result (λ v. v.items ≡ texts.line_text path.now verdict.now.finding) }
{
    let finding = verdict.finding();
    let mut text = Vec::new(alloc);
    push_parts(&mut text, &[path, b" ", finding.name().bytes(), b" "])?;
    push_counted(&mut text, b' ', finding)?;
    push_names(&mut text, b' ', finding.flags())?;
    text.push(b'\n')?;
    Ok(text)
}

/// A row for programs, with a line feed: the fields between tabs. They are a test's path, the model, the test's name and kind, `Ok` or `No`, the word,
/// both counts, how many states there are, the flags, with commas between, the milliseconds, and the digests of the model's texts.
pub fn row_of(
    alloc: Global,
    case: &Case<'_>,
    verdict: &Verdict,
    milliseconds: u64,
) -> Result<Vec<u8>, AllocError>
    ensures { IfOk result (λ v. v.items ≡ texts.row_text case.now milliseconds verdict.now.finding) }
{
    let finding = verdict.finding();
    let mut text = Vec::new(alloc);
    push_whose(&mut text, case, finding)?;
    push_counted(&mut text, b'\t', finding)?;
    push_number(&mut text, b'\t', finding.states().len() as u64)?;
    text.push(b'\t')?;
    push_listed(&mut text, finding.flags())?;
    push_number(&mut text, b'\t', milliseconds)?;
    push_parts(&mut text, &[b"\t", case.digests.as_bytes(), b"\n"])?;
    Ok(text)
}

/// Adds a test's path, the model, and the test's name and kind, a tab behind each.
fn push_whose(text: &mut Vec<u8>, case: &Case<'_>, finding: &Finding) -> Result<(), AllocError>
    ensures { OnOk result (text.new.items ≡ text.old.items ++ texts.whose case.now finding.now) }
{
    push_parts(
        text,
        &[case.path.as_bytes(), b"\t", case.model.as_bytes(), b"\t"],
    )?;
    push_parts(
        text,
        &[
            finding.name().bytes(),
            b"\t",
            kind_text(finding.kind()).as_bytes(),
            b"\t",
        ],
    )
}

/// What a stored row tells of a verdict: the word, both counts and the flags, with blanks between.
pub fn answer_of(alloc: Global, verdict: &Verdict) -> Result<Vec<u8>, AllocError>
    ensures { IfOk result (λ v. v.items ≡ texts.answer_text verdict.now.finding) }
{
    let finding = verdict.finding();
    let mut text = Vec::new(alloc);
    push_parts(&mut text, &[finding.word().as_bytes()])?;
    push_number(&mut text, b' ', finding.positive())?;
    push_number(&mut text, b' ', finding.negative())?;
    push_names(&mut text, b' ', finding.flags())?;
    Ok(text)
}

/// Adds `Ok` or `No`, the word and both counts, with this byte between.
fn push_counted(text: &mut Vec<u8>, by: u8, finding: &Finding) -> Result<(), AllocError>
    ensures { OnOk result (text.new.items ≡ text.old.items ++ texts.counted by finding.now) }
{
    let answer: &[u8] = if finding.ok() { b"Ok" } else { b"No" };
    push_parts(text, &[answer, &[by], finding.word().as_bytes()])?;
    push_number(text, by, finding.positive())?;
    push_number(text, by, finding.negative())
}

/// The word for what a test asks.
pub(crate) fn kind_text<'a>(kind: Kind) -> &'a str
    ensures { result.now ≡ kind_text kind }
{
    match kind {
        Kind::Exists => "Allowed",
        Kind::NotExists => "Forbidden",
        Kind::Forall => "Required",
    }
}
