//! Rows that were stored, read back.

ghost use Rattle.std.specs.Prelude.{◌≡◌, List, All, map, fold, length, option_map, IfOk, IfErr, MatchResult, OnOk};
ghost use Rattle.std.specs.List.{flat_map};
ghost use Rattle.suite.specs.Expected.{stored_text};
ghost use Rattle.suite.specs.declared.expected.Row.{Row};
ghost use Rattle.outcome.specs.Reading as texts;
ghost use Rattle.outcome.specs.Reading.{AreRowsOf, IsNoRow, IsWhole, parts};
ghost use Rattle.outcome.specs.Rows.{texts_of};
ghost use Rattle.outcome.specs.declared.reading.RowsFault.TheVariants.{NoMemory};

use crate::rows::row_of;
use std::alloc::{AllocError, AllocFailed, Global};
use suite::Row;

/// Why a text has no rows.
#[derive(Debug, Drop, PartialEq, Eq)]
pub enum RowsFault {
    /// The line of this number, counted from 1, is no row.
    NoRow(usize),
    NoMemory,
}

impl From<AllocError> for RowsFault {
    ghost use Rattle.std.specs.Prelude.{◌≡◌};
    ghost use Rattle.outcome.specs.declared.reading.RowsFault.TheVariants.{NoMemory};

    ghost from_gives = { λ _ e. e ≡ NoMemory };

    fn from(_error: AllocError) -> Self {
        RowsFault::NoMemory
    }
}

impl<T: Drop> From<AllocFailed<T>> for RowsFault {
    ghost use Rattle.std.specs.Prelude.{◌≡◌};
    ghost use Rattle.outcome.specs.declared.reading.RowsFault.TheVariants.{NoMemory};

    ghost from_gives = { λ _ e. e ≡ NoMemory };

    fn from(_error: AllocFailed<T>) -> Self {
        RowsFault::NoMemory
    }
}

/// The parts of a text between these bytes.
fn parts_of(alloc: Global, text: &[u8], between: u8) -> Result<Vec<&[u8]>, AllocError>
    ensures { IfOk result (λ v. map (λ p. p.now) v.items ≡ parts between text.now) }
{
    text.split(move |byte| *byte == between).collect(alloc)
}

/// Adds a word behind a text, with a blank between. An empty word adds nothing.
fn push_word(text: &mut Vec<u8>, word: &[u8]) -> Result<(), AllocError>
    ensures { OnOk result (text.new.items ≡ texts.with_word text.old.items word.now) }
{
    if word.is_empty() {
        return Ok(());
    }
    if text.is_empty() {
        return text.extend_from_slice(word);
    }
    text.push(b' ')?;
    text.extend_from_slice(word)
}

/// Adds words, one after another.
fn push_words(text: &mut Vec<u8>, words: &[&[u8]]) -> Result<(), AllocError>
    ensures { OnOk result (text.new.items ≡ fold texts.with_word text.old.items (map (λ w. w.now) words.now)) }
{
    for word in words {
        push_word(text, word)?;
    }
    Ok(())
}

/// The answer of a line for programs.
fn answer_in(alloc: Global, fields: &[&[u8]]) -> Result<Vec<u8>, AllocError>
    requires { length fields.now ≡ 12 }
    ensures { IfOk result (λ v. v.items ≡ texts.answer_in (map (λ f. f.now) fields.now)) }
{
    let mut answer = Vec::new(alloc);
    if fields[4] == b"refused".as_slice() {
        push_words(&mut answer, &[fields[4], fields[5]])?;
        return Ok(answer);
    }
    push_words(&mut answer, &[fields[5], fields[6], fields[7]])?;
    push_words(&mut answer, &parts_of(alloc, fields[9], b',')?)?;
    Ok(answer)
}

/// The row of a stored line.
fn of_stored(alloc: Global, fields: &[&[u8]]) -> Result<Row, AllocError>
    requires { length fields.now ≡ 4 }
    ensures { IfOk result (λ r. texts_of r ≡ texts.of_stored (map (λ f. f.now) fields.now)) }
{
    row_of(alloc, fields[0], fields[1], fields[2], fields[3])
}

/// The row of a line for programs.
fn of_printed(alloc: Global, fields: &[&[u8]]) -> Result<Row, AllocError>
    requires { length fields.now ≡ 12 }
    ensures { IfOk result (λ r. texts_of r ≡ texts.of_printed (map (λ f. f.now) fields.now)) }
{
    let answer = answer_in(alloc, fields)?;
    row_of(alloc, fields[0], fields[1], &answer, fields[8])
}

/// The row of these fields, if they are those of one.
fn row_of_fields(alloc: Global, fields: &[&[u8]]) -> Result<Option<Row>, AllocError>
    ensures { IfOk result (λ o. option_map texts_of o ≡ texts.of_fields (map (λ f. f.now) fields.now)) }
{
    if fields.len() == 4 {
        return Ok(Some(of_stored(alloc, fields)?));
    }
    if fields.len() == 12 {
        return Ok(Some(of_printed(alloc, fields)?));
    }
    Ok(None)
}

/// The row of a line, if it is one.
fn row_in(alloc: Global, line: &[u8]) -> Result<Option<Row>, AllocError>
    ensures { IfOk result (λ o. option_map texts_of o ≡ texts.row_of_line line.now) }
{
    row_of_fields(alloc, &parts_of(alloc, line, b'\t')?)
}

/// The rows of lines.
fn rows_of(alloc: Global, lines: &[&[u8]]) -> Result<Vec<Row>, RowsFault>
    ensures rows { IfOk result (λ v. AreRowsOf (map (λ l. l.now) lines.now) (map texts_of v.items)) }
    ensures cause { IfErr result (IsNoRow (map (λ l. l.now) lines.now)) }
{
    let mut rows = Vec::new(alloc);
    for (place, line) in lines.iter().enumerate() {
        if line.is_empty() {
            continue;
        }
        match row_in(alloc, line)? {
            Some(row) => rows.push(row)?,
            None => return Err(RowsFault::NoRow(place + 1)),
        }
    }
    Ok(rows)
}

/// The rows of a text, a line each, as `Row::stored` or `suite::row_of` writes them. Empty lines are none.
pub fn rows_in(alloc: Global, text: &[u8]) -> Result<Vec<Row>, RowsFault>
    ensures rows { IfOk result (λ v. AreRowsOf (parts 10 text.now) (map texts_of v.items)) }
    ensures cause { IfErr result (IsNoRow (parts 10 text.now)) }
    // What was stored is read back, unless memory runs out.
    ensures stored { (stored : List Row) → All IsWhole stored → text.now ≡ flat_map stored_text stored → MatchResult result (λ v. map texts_of v.items ≡ map texts_of stored) (λ e. e ≡ NoMemory) }
{
    let lines = parts_of(alloc, text, b'\n')?;
    rows_of(alloc, &lines)
}
