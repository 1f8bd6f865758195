//! What is told of a test that has no verdict.

ghost use Rattle.std.specs.Prelude.{◌≡◌, ◌++◌, map, IfOk, OnOk, string_bytes};
ghost use Rattle.std.specs.List.{flat_map};
ghost use Rattle.serde_json.specs.View.{view};
ghost use Rattle.serde_json.specs.Written.{compact_text};
ghost use Rattle.outcome.specs.Forms.{table_text};
ghost use Rattle.outcome.specs.Refusals as texts;
ghost use Rattle.outcome.specs.Refusals.{refusal_text, refused_row};
ghost use Rattle.outcome.specs.Rows.{texts_of};

use crate::form::{Form, Tested, Wanted};
use crate::rows::row_with;
use crate::verdicts::{ended, table_of};
use fault_messages::{space_trouble, test_fault};
use itoa::Buffer;
use serde_json::{Value, json};
use std::alloc::{AllocError, Global};
use suite::{Case, Row, TestTrouble};

/// The number and the name of a refusal.
pub(crate) fn label_of(trouble: &TestTrouble) -> &'static str
    ensures { result.now ≡ texts.label trouble.now }
{
    match trouble {
        TestTrouble::Test(fault) => fault.label(),
        TestTrouble::Space(fault) => fault.label(),
        TestTrouble::Late => "Late",
        TestTrouble::NoMemory => "NoMemory",
    }
}

/// Why a text is no test, or has no verdict.
pub(crate) fn message_of(
    alloc: Global,
    path: &str,
    text: &[u8],
    trouble: &TestTrouble,
) -> Result<String, AllocError>
    ensures { IfOk result (λ s. texts.Tells path.now text.now trouble.now (string_bytes s)) }
{
    match trouble {
        TestTrouble::Test(fault) => test_fault(alloc, path, text, fault),
        TestTrouble::Space(fault) => space_trouble(alloc, path, fault.label()),
        TestTrouble::Late => late_message(alloc, path),
        TestTrouble::NoMemory => Err(AllocError),
    }
}

/// That a test was given up.
fn late_message(alloc: Global, path: &str) -> Result<String, AllocError>
    ensures { IfOk result (λ s. string_bytes s ≡ texts.late_message path.now) }
{
    let mut message = String::from_str(alloc, path)?;
    message.push_str(": given up: it took longer than --timeout says\n")?;
    Ok(message)
}

/// A refusal as fields between tabs.
fn fields_of(
    alloc: Global,
    milliseconds: u64,
    label: &str,
    case: &Case<'_>,
) -> Result<Vec<u8>, AllocError>
    ensures { IfOk result (λ v. v.items ≡ texts.refusal_row case.now milliseconds label.now) }
{
    let mut digits = Buffer::new();
    let number = digits.format(milliseconds);
    let mut text = Vec::new(alloc);
    push_parts(&mut text, &[case.path, "\t", case.model, "\t\t\t"])?;
    push_parts(&mut text, &["refused\t", label, "\t\t\t\t\t"])?;
    push_parts(&mut text, &[number, "\t", case.digests, "\n"])?;
    Ok(text)
}

/// Adds texts, one after another.
fn push_parts(text: &mut Vec<u8>, parts: &[&str]) -> Result<(), AllocError>
    ensures { OnOk result (text.new.items ≡ text.old.items ++ flat_map (λ p. p.now) parts.now) }
{
    for part in parts {
        text.extend_from_slice(part.as_bytes())?;
    }
    Ok(())
}

/// A refusal as a line for people.
fn line_of(alloc: Global, label: &str, case: &Case<'_>) -> Result<Vec<u8>, AllocError>
    ensures { IfOk result (λ v. v.items ≡ texts.refusal_line case.now label.now) }
{
    let mut text = Vec::new(alloc);
    push_parts(&mut text, &[case.path, " refused ", label, "\n"])?;
    Ok(text)
}

/// A refusal as an object of JSON.
fn object_of(
    alloc: Global,
    milliseconds: u64,
    label: &str,
    case: &Case<'_>,
) -> Result<String, AllocError>
    ensures { IfOk result (λ s. string_bytes s ≡ compact_text (texts.refusal_data case.now milliseconds label.now)) }
{
    let value = value_of(alloc, milliseconds, label, case)?;
    value.to_string(alloc)
}

/// The object.
fn value_of(
    alloc: Global,
    milliseconds: u64,
    label: &str,
    case: &Case<'_>,
) -> Result<Value, AllocError>
    ensures { IfOk result (λ v. view v ≡ texts.refusal_data case.now milliseconds label.now) }
{
    json!(in alloc; {
        "digests": case.digests,
        "file": case.path,
        "milliseconds": milliseconds,
        "model": case.model,
        "refused": label
    })
}

/// What is printed of a refusal by itself.
fn text_of(
    alloc: Global,
    form: Form,
    milliseconds: u64,
    label: &str,
    case: &Case<'_>,
) -> Result<Vec<u8>, AllocError>
    ensures { IfOk result (λ v. v.items ≡ refusal_text form milliseconds label.now case.now) }
{
    match form {
        Form::Summary | Form::Table => Ok(Vec::new(alloc)),
        Form::Line => line_of(alloc, label, case),
        Form::Tabs => fields_of(alloc, milliseconds, label, case),
        Form::Json => ended(object_of(alloc, milliseconds, label, case)?.into_bytes()),
    }
}

/// Adds what is printed of a refusal by itself, under each of the models.
fn push_refusals(
    text: &mut Vec<u8>,
    alloc: Global,
    form: Form,
    milliseconds: u64,
    label: &str,
    cases: &[Case<'_>],
) -> Result<(), AllocError>
    ensures { OnOk result (text.new.items ≡ text.old.items ++ flat_map (refusal_text form milliseconds label.now) cases.now) }
{
    for case in cases {
        text.append(&mut text_of(alloc, form, milliseconds, label, case)?)?;
    }
    Ok(())
}

/// The test's row of a table, with the same cell under each of the models, or nothing in another form.
fn refused_table(
    alloc: Global,
    wanted: &Wanted<'_>,
    test: &Tested<'_>,
) -> Result<Vec<u8>, AllocError>
    ensures { IfOk result (λ v. v.items ≡ table_text wanted.now.form wanted.now test.now (texts.refused_cells wanted.now)) }
{
    let mut cells = Vec::new(alloc);
    for _ in wanted.models {
        cells.push(Vec::from_slice(alloc, b"refused")?)?;
    }
    table_of(alloc, wanted, test, &cells)
}

/// Adds what is printed of a refused test: in a table its row, else the refusal under each of the models.
pub(crate) fn push_refused_lines(
    text: &mut Vec<u8>,
    alloc: Global,
    wanted: &Wanted<'_>,
    test: &Tested<'_>,
    trouble: &TestTrouble,
) -> Result<(), AllocError>
    ensures { OnOk result (text.new.items ≡ text.old.items ++ texts.refusals_text wanted.now test.now trouble.now) }
{
    text.append(&mut refused_table(alloc, wanted, test)?)?;
    push_refusals(
        text,
        alloc,
        wanted.form,
        test.milliseconds,
        label_of(trouble),
        test.cases,
    )
}

/// Adds what is compared or stored of a refusal, under each of the models.
pub(crate) fn push_refused(
    rows: &mut Vec<Row>,
    alloc: Global,
    label: &str,
    cases: &[Case<'_>],
) -> Result<(), AllocError>
    ensures { OnOk result (map texts_of rows.new.items ≡ map texts_of rows.old.items ++ map (refused_row label.now) cases.now) }
{
    let mut answer = Vec::from_slice(alloc, b"refused ")?;
    answer.extend_from_slice(label.as_bytes())?;
    for case in cases {
        rows.push(row_with(alloc, case, &answer, b"")?)?;
    }
    Ok(())
}
