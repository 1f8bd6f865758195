//! A table of tests and models.

ghost use Rattle.std.specs.Prelude.{◌≡◌, ◌++◌, ◌-◌, map, length, IfOk, OnOk};
ghost use Rattle.suite.specs.Tables as texts;

use crate::text::{push_blanks, push_names, push_parts};
use slices::Verdict;
use std::alloc::{AllocError, Global};

/// The least width of a column: that of the longest word.
const WORD: usize = 9;

/// What a cell tells of a verdict: the word, and the flags, with blanks between.
pub fn cell_of(alloc: Global, verdict: &Verdict) -> Result<Vec<u8>, AllocError>
    ensures { IfOk result (λ v. v.items ≡ texts.cell verdict.now.finding) }
{
    let finding = verdict.finding();
    let mut text = Vec::new(alloc);
    text.extend_from_slice(finding.word().as_bytes())?;
    push_names(&mut text, b' ', finding.flags())?;
    Ok(text)
}

/// The head of a table: the models' names over their columns, behind paths of this width.
pub fn head_of(alloc: Global, width: usize, models: &[Vec<u8>]) -> Result<Vec<u8>, AllocError>
    ensures { IfOk result (λ v. v.items ≡ texts.head_text width (map (λ m. m.items) models.now)) }
{
    let mut text = Vec::new(alloc);
    push_parts(&mut text, &[b"  "])?;
    push_cells(&mut text, width, models, models)?;
    text.push(b'\n')?;
    Ok(text)
}

/// A row of a table: a star where the cells differ, a test's path as wide as this, and the cells in the columns of the models.
pub fn table_row_of(
    alloc: Global,
    width: usize,
    path: &[u8],
    models: &[Vec<u8>],
    cells: &[Vec<u8>],
) -> Result<Vec<u8>, AllocError>
    ensures { IfOk result (λ v. v.items ≡ texts.table_row width path.now (map (λ m. m.items) models.now) (map (λ c. c.items) cells.now)) }
{
    let mark: &[u8] = if are_alike(cells) { b"  " } else { b"* " };
    let mut text = Vec::new(alloc);
    push_parts(&mut text, &[mark, path])?;
    push_cells(&mut text, width.saturating_sub(path.len()), models, cells)?;
    text.push(b'\n')?;
    Ok(text)
}

/// Whether the cells tell the same.
pub fn are_alike(cells: &[Vec<u8>]) -> bool
    ensures { result ≡ texts.are_alike (map (λ c. c.items) cells.now) }
{
    match cells.split_first() {
        Some((first, rest)) => are_all(first, rest),
        None => true,
    }
}

/// Whether each cell tells this.
fn are_all(text: &[u8], cells: &[Vec<u8>]) -> bool
    ensures { result ≡ texts.are_all text.now (map (λ c. c.items) cells.now) }
{
    let mut left = cells;
    while let Some((cell, rest)) = left.split_first() {
        if text != cell.as_slice() {
            return false;
        }
        left = rest;
    }
    true
}

/// Adds each cell behind two blanks and those that fill the column before it, which lacks so many before the first.
fn push_cells(
    text: &mut Vec<u8>,
    lacking: usize,
    models: &[Vec<u8>],
    cells: &[Vec<u8>],
) -> Result<(), AllocError>
    ensures { OnOk result (text.new.items ≡ text.old.items ++ texts.cells_text lacking (map (λ m. m.items) models.now) (map (λ c. c.items) cells.now)) }
{
    let mut blanks = lacking;
    let mut left = models;
    let mut rest = cells;
    while let Some((model, others)) = left.split_first() {
        match rest.split_first() {
            Some((cell, more)) => {
                push_blanks(text, blanks)?;
                push_parts(text, &[b"  ", cell])?;
                blanks = model.len().max(WORD).saturating_sub(cell.len());
                left = others;
                rest = more;
            }
            None => return Ok(()),
        }
    }
    Ok(())
}
