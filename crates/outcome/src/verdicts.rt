//! What is printed and kept of the verdicts on a test.

ghost use Rattle.std.specs.Prelude.{◌≡◌, ◌++◌, map, codes, IfOk, OnOk};
ghost use Rattle.outcome.specs.Forms.{verdict_text, verdicts_text, cells_of, table_text, lines_text};
ghost use Rattle.outcome.specs.Rows.{texts_of, verdict_row, verdict_rows};

use crate::form::{Form, Tested, Wanted};
use crate::rows::row_with;
use itoa::Buffer;
use slices::Verdict;
use std::alloc::{AllocError, Global};
use suite::{Case, Row, answer_of, cell_of, line_of, object_of, row_of, summary_of, table_row_of};

/// The cells of a test's row, a verdict each.
pub(crate) fn cells_for(alloc: Global, verdicts: &[Verdict]) -> Result<Vec<Vec<u8>>, AllocError>
    ensures { IfOk result (λ v. map (λ c. c.items) v.items ≡ cells_of verdicts.now) }
{
    let mut cells = Vec::new(alloc);
    for verdict in verdicts {
        cells.push(cell_of(alloc, verdict)?)?;
    }
    Ok(cells)
}

/// A text, and a line feed.
pub(crate) fn ended(text: Vec<u8>) -> Result<Vec<u8>, AllocError>
    ensures { IfOk result (λ v. v.items ≡ text.items ++ codes "\n") }
{
    let mut text = text;
    text.push(b'\n')?;
    Ok(text)
}

/// What is printed of a verdict by itself.
fn text_of(
    alloc: Global,
    form: Form,
    milliseconds: u64,
    case: &Case<'_>,
    verdict: &Verdict,
) -> Result<Vec<u8>, AllocError>
    ensures { IfOk result (λ v. v.items ≡ verdict_text form milliseconds case.now verdict.now.finding) }
{
    match form {
        Form::Summary => ended(summary_of(alloc, verdict)?),
        Form::Line => line_of(alloc, case.path.as_bytes(), verdict),
        Form::Table => Ok(Vec::new(alloc)),
        Form::Tabs => row_of(alloc, case, verdict, milliseconds),
        Form::Json => ended(object_of(alloc, case, verdict, milliseconds)?.into_bytes()),
    }
}

/// Adds what is printed of each verdict by itself, with its own case.
fn push_verdicts(
    text: &mut Vec<u8>,
    alloc: Global,
    form: Form,
    milliseconds: u64,
    cases: &[Case<'_>],
    verdicts: &[Verdict],
) -> Result<(), AllocError>
    ensures { OnOk result (text.new.items ≡ text.old.items ++ verdicts_text form milliseconds cases.now verdicts.now) }
{
    for (case, verdict) in cases.iter().zip(verdicts) {
        text.append(&mut text_of(alloc, form, milliseconds, case, verdict)?)?;
    }
    Ok(())
}

/// The test's row of a table, or nothing in another form.
pub(crate) fn table_of(
    alloc: Global,
    wanted: &Wanted<'_>,
    test: &Tested<'_>,
    cells: &[Vec<u8>],
) -> Result<Vec<u8>, AllocError>
    ensures { IfOk result (λ v. v.items ≡ table_text wanted.now.form wanted.now test.now (map (λ c. c.items) cells.now)) }
{
    match wanted.form {
        Form::Table => table_row_of(
            alloc,
            wanted.width,
            test.path.as_bytes(),
            wanted.models,
            cells,
        ),
        _ => Ok(Vec::new(alloc)),
    }
}

/// Adds what is printed of a test: in a table its row of these cells, else each verdict by itself.
pub(crate) fn push_lines(
    text: &mut Vec<u8>,
    alloc: Global,
    wanted: &Wanted<'_>,
    test: &Tested<'_>,
    cells: &[Vec<u8>],
    verdicts: &[Verdict],
) -> Result<(), AllocError>
    requires { map (λ c. c.items) cells.now ≡ cells_of verdicts.now }
    ensures { OnOk result (text.new.items ≡ text.old.items ++ lines_text wanted.now test.now verdicts.now) }
{
    text.append(&mut table_of(alloc, wanted, test, cells)?)?;
    push_verdicts(
        text,
        alloc,
        wanted.form,
        test.milliseconds,
        test.cases,
        verdicts,
    )
}

/// What is compared or stored of a verdict.
fn row_for(alloc: Global, case: &Case<'_>, verdict: &Verdict) -> Result<Row, AllocError>
    ensures { IfOk result (λ r. texts_of r ≡ verdict_row case.now verdict.now.finding) }
{
    let answer = answer_of(alloc, verdict)?;
    let mut digits = Buffer::new();
    let states = digits.format(verdict.finding().states().len() as u64);
    row_with(alloc, case, &answer, states.as_bytes())
}

/// Adds what is compared or stored of each verdict, with its own case.
pub(crate) fn push_rows(
    rows: &mut Vec<Row>,
    alloc: Global,
    cases: &[Case<'_>],
    verdicts: &[Verdict],
) -> Result<(), AllocError>
    ensures { OnOk result (map texts_of rows.new.items ≡ map texts_of rows.old.items ++ verdict_rows cases.now verdicts.now) }
{
    for (case, verdict) in cases.iter().zip(verdicts) {
        rows.push(row_for(alloc, case, verdict)?)?;
    }
    Ok(())
}
