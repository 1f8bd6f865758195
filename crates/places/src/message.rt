//! The text that tells of a fault.

ghost use Rattle.std.specs.Prelude.{◌≡◌, ◌≤◌, ◌++◌, ◌-◌, OnOk, IfOk, length, map, replicate, decimal};
ghost use Rattle.std.specs.String.{string_bytes};
ghost use Rattle.places.specs.declared.place.Place.{Place as Placed};
ghost use Rattle.places.specs.Lines.{IsPlaceOf};
ghost use Rattle.places.specs.Messages as messages;

use crate::place::Place;
use itoa::Buffer;
use std::alloc::{AllocError, Global};

/// How many bytes of a line are shown at most, and how many of them before the caret where more stand behind.
const WINDOW: usize = 120;

const BEFORE: usize = 60;

/// A byte of a source as it is shown.
fn shown(byte: u8) -> char
    ensures { result ≡ messages.shown byte }
{
    match byte {
        32..=126 => byte as char,
        0..=31 | 127 => ' ',
        _ => '?',
    }
}

/// Adds the bytes of a source as they are shown.
fn push_shown(out: &mut String, bytes: &[u8]) -> Result<(), AllocError>
    ensures { OnOk result (string_bytes out.new ≡ string_bytes out.old ++ map messages.shown bytes.now) }
{
    for byte in bytes {
        out.push(shown(*byte))?;
    }
    Ok(())
}

/// Adds blanks.
fn push_blanks(out: &mut String, count: usize) -> Result<(), AllocError>
    ensures { OnOk result (string_bytes out.new ≡ string_bytes out.old ++ replicate count 32) }
{
    for _done in 0..count {
        out.push(' ')?;
    }
    Ok(())
}

/// Adds a number in decimal digits.
fn push_number(out: &mut String, number: usize) -> Result<(), AllocError>
    ensures { OnOk result (string_bytes out.new ≡ string_bytes out.old ++ decimal number) }
{
    let mut digits = Buffer::new();
    out.push_str(digits.format(number))
}

/// Adds a label, as `12 Syntax`, turned: `Syntax (12)`.
#[tactic(auto, unfolding(crate::specs::Messages::turned))]
fn push_turned(out: &mut String, label: &str) -> Result<(), AllocError>
    ensures { OnOk result (string_bytes out.new ≡ string_bytes out.old ++ messages.turned label.now) }
{
    match label.split_once(' ') {
        Some((number, name)) => {
            out.push_str(name)?;
            out.push_str(" (")?;
            out.push_str(number)?;
            out.push_str(")")
        }
        None => out.push_str(label),
    }
}

/// Adds what is told of a fault.
#[tactic(auto, unfolding(crate::specs::Messages::told))]
fn push_told(out: &mut String, label: &str, sentence: &str) -> Result<(), AllocError>
    ensures { OnOk result (string_bytes out.new ≡ string_bytes out.old ++ messages.told label.now sentence.now) }
{
    push_turned(out, label)?;
    out.push_str(": ")?;
    out.push_str(sentence)?;
    out.push_str("\n")
}

/// Adds what stands first of a message at a place.
#[tactic(auto, unfolding(crate::specs::Messages::head))]
fn push_head(out: &mut String, path: &str, place: &Place<'_>) -> Result<(), AllocError>
    ensures { OnOk result (string_bytes out.new ≡ string_bytes out.old ++ messages.head path.now place.now) }
{
    out.push_str(path)?;
    out.push_str(":")?;
    push_number(out, place.line)?;
    out.push_str(":")?;
    push_number(out, place.column)?;
    out.push_str(": ")
}

/// Where the shown bytes of a line begin, for a caret behind so many bytes.
fn window_start(len: usize, at: usize) -> usize
    ensures value { result ≡ messages.window_start len at }
    ensures within { result ≤ len }
{
    at.saturating_sub(BEFORE).min(len.saturating_sub(WINDOW))
}

/// The shown bytes of a line.
fn window(source: &[u8], from: usize) -> &[u8]
    requires { from ≤ length source.now }
    ensures { result.now ≡ messages.window source.now from }
{
    let (_, ahead) = source.split_at(from);
    let end = ahead.len().min(WINDOW);
    &ahead[..end]
}

/// What stands for bytes that are left out.
#[tactic(auto, unfolding(crate::specs::Messages::dots))]
fn dots(is_cut: bool) -> &'static str
    ensures { result.now ≡ messages.dots is_cut }
{
    if is_cut { "..." } else { "" }
}

/// Adds the bytes of a line that are shown.
#[tactic(auto, unfolding(crate::specs::Messages::shown_window))]
fn push_window(out: &mut String, source: &[u8], from: usize) -> Result<(), AllocError>
    requires { from ≤ length source.now }
    ensures { OnOk result (string_bytes out.new ≡ string_bytes out.old ++ messages.shown_window source.now from) }
{
    out.push_str("    ")?;
    out.push_str(dots(from > 0))?;
    push_shown(out, window(source, from))?;
    out.push_str(dots(source.len() - from > WINDOW))?;
    out.push_str("\n")
}

/// Adds a caret below the byte at an offset of a line.
#[tactic(auto, unfolding(crate::specs::Messages::shown_caret))]
fn push_caret(out: &mut String, at: usize, from: usize) -> Result<(), AllocError>
    ensures { OnOk result (string_bytes out.new ≡ string_bytes out.old ++ messages.shown_caret at from) }
{
    out.push_str("    ")?;
    push_blanks(out, dots(from > 0).len())?;
    push_blanks(out, at.saturating_sub(from))?;
    out.push_str("^\n")
}

/// Adds the source's line, and a caret.
#[tactic(auto, unfolding(crate::specs::Messages::shown_line))]
fn push_line(out: &mut String, place: &Place<'_>) -> Result<(), AllocError>
    ensures { OnOk result (string_bytes out.new ≡ string_bytes out.old ++ messages.shown_line place.now) }
{
    let at = place.column.saturating_sub(1);
    let from = window_start(place.source.len(), at);
    push_window(out, place.source, from)?;
    push_caret(out, at, from)
}

/// What is told of a fault at an offset of a text.
#[tactic(auto, unfolding(crate::specs::Messages::message))]
pub fn message_at(
    alloc: Global,
    path: &str,
    text: &[u8],
    offset: usize,
    label: &str,
    sentence: &str,
) -> Result<String, AllocError>
    ensures { IfOk result (λ s. (p : Placed) × IsPlaceOf text.now offset p × (string_bytes s ≡ messages.message path.now label.now sentence.now p)) }
{
    let place = Place::of(text, offset);
    let mut out = String::new(alloc);
    push_head(&mut out, path, &place)?;
    push_told(&mut out, label, sentence)?;
    push_line(&mut out, &place)?;
    Ok(out)
}

/// What is told of a fault that has no place.
#[tactic(auto, unfolding(crate::specs::Messages::message_without_place))]
pub fn message_without_place(
    alloc: Global,
    path: &str,
    label: &str,
    sentence: &str,
) -> Result<String, AllocError>
    ensures { IfOk result (λ s. string_bytes s ≡ messages.message_without_place path.now label.now sentence.now) }
{
    let mut out = String::new(alloc);
    out.push_str(path)?;
    out.push_str(": ")?;
    push_told(&mut out, label, sentence)?;
    Ok(out)
}
