//! What is expected of tests under models, and how what is found differs.

ghost use Rattle.std.specs.Prelude.{◌≡◌, ◌++◌, ◌&&◌, take, drop, find, option_map, IfOk, OnOk};
ghost use Rattle.std.specs.HashMap.{get_by};
ghost use Rattle.std.specs.List.{flat_map};
ghost use Rattle.suite.specs.Expected as texts;
ghost use Rattle.suite.specs.Expected.{same_case, is_of, HasFirsts, fate, novelty};

use crate::text::push_parts;
use std::alloc::{AllocError, Global};
use std::collections::HashMap;

/// What is found of a test under a model, as texts. None of them has a tab or a line feed.
#[derive(Drop)]
pub struct Row {
    /// The test's path, as it was given.
    pub path: Vec<u8>,
    /// The model's.
    pub model: Vec<u8>,
    /// The word, both counts and the flags; or why the test is refused.
    pub answer: Vec<u8>,
    /// How many final states there are, or nothing.
    pub states: Vec<u8>,
}

/// Rows by the path of their test and that of their model.
type ByCase<'a> = HashMap<(&'a [u8], &'a [u8]), &'a Row>;

/// The differences, a line each: what was expected and is otherwise or not there, in the order of what was expected, and then what wasn't expected.
pub fn differences(alloc: Global, expected: &[Row], found: &[Row]) -> Result<Vec<u8>, AllocError>
    ensures { IfOk result (λ v. v.items ≡ texts.differences_text expected.now found.now) }
{
    let mut text = Vec::new(alloc);
    push_fates(&mut text, expected, found)?;
    push_novelties(&mut text, expected, found)?;
    Ok(text)
}

/// Adds what is told of each expected row.
fn push_fates<'a>(
    text: &mut Vec<u8>,
    expected: &'a [Row],
    found: &'a [Row],
) -> Result<(), AllocError>
    ensures { OnOk result (text.new.items ≡ text.old.items ++ flat_map (λ r. fate r (find (same_case r) found.now)) expected.now) }
{
    let firsts = first_rows(*text.allocator(), found)?;
    for row in expected {
        push_fate(text, row, row_for(row, &firsts))?;
    }
    Ok(())
}

/// Adds each row that wasn't expected.
fn push_novelties<'a>(
    text: &mut Vec<u8>,
    expected: &'a [Row],
    found: &'a [Row],
) -> Result<(), AllocError>
    ensures { OnOk result (text.new.items ≡ text.old.items ++ flat_map (λ s. novelty s (find (same_case s) expected.now)) found.now) }
{
    let firsts = first_rows(*text.allocator(), expected)?;
    for row in found {
        push_novelty(text, row, row_for(row, &firsts))?;
    }
    Ok(())
}

/// The first of the rows of each case.
fn first_rows<'a>(alloc: Global, rows: &'a [Row]) -> Result<ByCase<'a>, AllocError>
    ensures { IfOk result (λ m. HasFirsts m rows.now) }
{
    let mut firsts = HashMap::new(alloc);
    // From the back, so that of the rows of a case the first is put last, and stays.
    for row in rows.iter().rev() {
        firsts.insert(case_of(row), row)?;
    }
    Ok(firsts)
}

/// The row that is there for the case of this one.
fn row_for<'a>(row: &'a Row, rows: &ByCase<'a>) -> Option<&'a Row>
    ensures { option_map (λ s. s.now) result ≡ option_map (λ s. s.now) (get_by (λ c. is_of row.now c.0.now c.1.now) rows.now) }
{
    rows.get(&case_of(row)).copied()
}

/// Which test under which model a row is of.
fn case_of(row: &Row) -> (&[u8], &[u8])
    ensures path { result.0.now ≡ row.now.path.items }
    ensures model { result.1.now ≡ row.now.model.items }
{
    (row.path.as_slice(), row.model.as_slice())
}

/// Adds what is told of an expected row, where this one was found for it.
fn push_fate(text: &mut Vec<u8>, row: &Row, found: Option<&Row>) -> Result<(), AllocError>
    ensures { OnOk result (text.new.items ≡ text.old.items ++ fate row.now (option_map (λ r. r.now) found.entry)) }
{
    match found {
        Some(other) => push_between(text, row, other),
        None => push_missing(text, row),
    }
}

/// Adds a word, and which test under which model.
fn push_case(text: &mut Vec<u8>, label: &[u8], row: &Row) -> Result<(), AllocError>
    ensures { OnOk result (text.new.items ≡ text.old.items ++ texts.case_text label.now row.now) }
{
    push_parts(text, &[label, b" ", &row.path, b" ", &row.model])
}

/// Adds that nothing was found for a row.
fn push_missing(text: &mut Vec<u8>, row: &Row) -> Result<(), AllocError>
    ensures { OnOk result (text.new.items ≡ text.old.items ++ texts.missing_text row.now) }
{
    push_case(text, b"MISSING", row)?;
    text.push(b'\n')?;
    Ok(())
}

/// Adds that a row wasn't expected.
fn push_new(text: &mut Vec<u8>, row: &Row) -> Result<(), AllocError>
    ensures { OnOk result (text.new.items ≡ text.old.items ++ texts.new_text row.now) }
{
    push_case(text, b"NEW", row)?;
    push_parts(text, &[b": ", &row.answer, b"\n"])
}

/// Adds how two rows of one test under one model differ, if they do.
fn push_between(text: &mut Vec<u8>, old: &Row, new: &Row) -> Result<(), AllocError>
    ensures { OnOk result (text.new.items ≡ text.old.items ++ texts.between old.now new.now) }
{
    if old.answer.as_slice() != new.answer.as_slice() {
        return push_changed(text, old, new);
    }
    if old.states.as_slice() != new.states.as_slice() {
        return push_states(text, old, new);
    }
    Ok(())
}

/// Adds that the answer was another.
fn push_changed(text: &mut Vec<u8>, old: &Row, new: &Row) -> Result<(), AllocError>
    ensures { OnOk result (text.new.items ≡ text.old.items ++ texts.changed_text old.now new.now) }
{
    push_case(text, b"CHANGED", old)?;
    push_parts(
        text,
        &[b": was ", &old.answer, b", is ", &new.answer, b"\n"],
    )
}

/// Adds that there were more or fewer final states.
fn push_states(text: &mut Vec<u8>, old: &Row, new: &Row) -> Result<(), AllocError>
    ensures { OnOk result (text.new.items ≡ text.old.items ++ texts.states_text old.now new.now) }
{
    push_case(text, b"CHANGED", old)?;
    push_parts(text, &[b": ", &old.answer])?;
    push_counts(text, old, new)
}

/// Adds how many final states there were, and how many there are.
fn push_counts(text: &mut Vec<u8>, old: &Row, new: &Row) -> Result<(), AllocError>
    ensures { OnOk result (text.new.items ≡ text.old.items ++ texts.states_counted old.now new.now) }
{
    let (was, is) = (&old.states, &new.states);
    push_parts(
        text,
        &[b", was in ", was, b" states, is in ", is, b" states\n"],
    )
}

/// Adds a row that was found, where this one was expected for it, if it wasn't.
fn push_novelty(text: &mut Vec<u8>, row: &Row, expected: Option<&Row>) -> Result<(), AllocError>
    ensures { OnOk result (text.new.items ≡ text.old.items ++ novelty row.now (option_map (λ r. r.now) expected.entry)) }
{
    match expected {
        Some(_) => Ok(()),
        None => push_new(text, row),
    }
}

impl Row {
    /// The row as it is stored: its fields between tabs, and a line feed.
    pub fn stored(&self, alloc: Global) -> Result<Vec<u8>, AllocError>
        ensures { IfOk result (λ v. v.items ≡ texts.stored_text self.now) }
    {
        let mut text = Vec::new(alloc);
        push_parts(
            &mut text,
            &[
                &self.path,
                b"\t",
                &self.model,
                b"\t",
                &self.answer,
                b"\t",
                &self.states,
                b"\n",
            ],
        )?;
        Ok(text)
    }
}
