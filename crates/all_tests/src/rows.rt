//! Cases as rows of a text: what is given, ` ==> `, and what is answered. A table of a hundred rows is so one literal, and is proved
//! at the cost of a small one.

use std::alloc::{AllocError, Global};
use std::process::Abort;

/// A call's answer, made again once where it was refused so.
macro_rules! again {
    ($refused:pat, $call:expr) => {
        match $call {
            Err($refused) => $call,
            answer => answer,
        }
    };
}

pub(crate) use again;

/// Whether what is given is answered so.
pub type Check = fn(Global, &str, &str) -> Result<bool, AllocError>;

/// What is answered to what is given, or `Err` where memory was wanting alone.
pub type Answer = fn(Global, &str) -> Result<String, AllocError>;

/// Fails with a name, unless it holds.
pub fn expect(rt: &impl Abort, name: &str, holds: bool) {
    assert!(rt; holds, "{name}");
}

/// Whether a row holds. One that begins with `#` is a heading.
fn holds(alloc: Global, row: &str, check: Check) -> bool
    requires { IsAlwaysCallable check }
{
    match row.split_once(" ==> ") {
        Some((given, wanted)) => check(alloc, given, wanted).unwrap_or(false),
        None => row.starts_with('#'),
    }
}

/// Whether what is given is answered so. Where memory was wanting it is asked again.
pub fn is_answer(alloc: Global, given: &str, wanted: &str, answer: Answer) -> bool
    requires { IsAlwaysCallable answer }
{
    match again!(_, answer(alloc, given)) {
        Ok(found) => found.as_str() == wanted,
        Err(AllocError) => false,
    }
}

/// Whether a row is answered so. One that begins with `#` is a heading.
fn is_answered(alloc: Global, row: &str, answer: Answer) -> bool
    requires { IsAlwaysCallable answer }
{
    match row.split_once(" ==> ") {
        Some((given, wanted)) => is_answer(alloc, given, wanted, answer),
        None => row.starts_with('#'),
    }
}

/// The text between the rows of a table: a line's end, or an empty line where there is one.
fn between(rows: &str) -> &'static str {
    if rows.contains("\n\n") { "\n\n" } else { "\n" }
}

/// Fails with the name of a table and its first row that doesn't hold. Rows are lines, and where there is an empty line all between two of
/// these.
pub fn all_hold(rt: &impl Abort, alloc: Global, name: &str, rows: &str, check: Check)
    requires { IsAlwaysCallable check }
{
    for row in rows.split(between(rows)) {
        assert!(rt; holds(alloc, row, check), "{name}: {row}");
    }
}

/// Fails with the name of a table and its first row that isn't answered as it says.
pub fn all_answered(rt: &impl Abort, alloc: Global, name: &str, rows: &str, answer: Answer)
    requires { IsAlwaysCallable answer }
{
    for row in rows.split(between(rows)) {
        assert!(rt; is_answered(alloc, row, answer), "{name}: {row}");
    }
}

/// The number that a word spells, if there is one.
pub fn number_of(word: Option<&str>) -> Option<usize> {
    match word {
        Some(word) => word.parse::<usize>().ok(),
        None => None,
    }
}

/// What a word stands for in a table.
pub fn meant<T: Copy>(table: &[(&str, T)], word: &str) -> Option<T> {
    for (name, meaning) in table {
        if *name == word {
            return Some(*meaning);
        }
    }
    None
}

/// Adds a part so many times.
fn push_repeated(text: &mut String, part: &str, times: &str) -> Result<(), AllocError> {
    let Ok(times) = times.parse::<usize>() else {
        return Err(AllocError);
    };
    for _ in 0..times {
        text.push_str(part)?;
    }
    Ok(())
}

/// The text in which `@part@times@` stands for that part so many times.
pub fn expanded(alloc: Global, text: &str) -> Result<String, AllocError> {
    let mut whole = String::new(alloc);
    let mut part = "";
    for (place, piece) in text.split('@').enumerate() {
        match place % 3 {
            0 => whole.push_str(piece)?,
            1 => part = piece,
            _ => push_repeated(&mut whole, part, piece)?,
        }
    }
    Ok(whole)
}
