//! Bytes that are put together from parts.

ghost use Rattle.std.specs.Prelude.{◌≡◌, ◌∷◌, ◌++◌, OnOk, decimal, replicate};
ghost use Rattle.std.specs.List.{flat_map};
ghost use Rattle.suite.specs.Lines.{listed};

use itoa::Buffer;
use std::alloc::AllocError;
use wb_text::Name;

/// Adds the parts, one after another.
pub(crate) fn push_parts(text: &mut Vec<u8>, parts: &[&[u8]]) -> Result<(), AllocError>
    ensures { OnOk result (text.new.items ≡ text.old.items ++ flat_map (λ p. p.now) parts.now) }
{
    for part in parts {
        text.extend_from_slice(part)?;
    }
    Ok(())
}

/// Adds the decimal digits of a number behind a byte.
pub(crate) fn push_number(text: &mut Vec<u8>, before: u8, number: u64) -> Result<(), AllocError>
    ensures { OnOk result (text.new.items ≡ text.old.items ++ (before ∷ decimal number)) }
{
    let mut digits = Buffer::new();
    text.push(before)?;
    text.extend_from_slice(digits.format(number).as_bytes())?;
    Ok(())
}

/// Adds the names, a byte before each.
pub(crate) fn push_names(text: &mut Vec<u8>, before: u8, names: &[Name]) -> Result<(), AllocError>
    ensures { OnOk result (text.new.items ≡ text.old.items ++ flat_map (λ name. before ∷ name) names.now) }
{
    for name in names {
        text.push(before)?;
        text.extend_from_slice(name.bytes())?;
    }
    Ok(())
}

/// Adds the names, with commas between.
pub(crate) fn push_listed(text: &mut Vec<u8>, names: &[Name]) -> Result<(), AllocError>
    ensures { OnOk result (text.new.items ≡ text.old.items ++ listed names.now) }
{
    match names.split_first() {
        Some((first, rest)) => {
            text.extend_from_slice(first.bytes())?;
            push_names(text, b',', rest)
        }
        None => Ok(()),
    }
}

/// Adds so many blanks.
pub(crate) fn push_blanks(text: &mut Vec<u8>, count: usize) -> Result<(), AllocError>
    ensures { OnOk result (text.new.items ≡ text.old.items ++ replicate count 32) }
{
    let mut left = count;
    while left > 0 {
        text.push(b' ')?;
        left -= 1;
    }
    Ok(())
}
