//! Why a text has no tokens.

ghost use Rattle.std.specs.Prelude.{IfOk};
ghost use Rattle.std.specs.String.{string_bytes};
ghost use Rattle.fault_messages.specs.Told.{TellsText};

use crate::bytes::bad_byte;
use crate::left_out::of_statement;
use crate::words::shown;
use places::{message_at, place_of_fault};
use std::alloc::{AllocError, Global};
use wb_text::{Dialect, TextFault};

/// The bytes of a byte order mark.
const MARK: &[u8] = b"\xef\xbb\xbf";

/// The bytes of a no-break space.
const NO_BREAK: &[u8] = b"\xc2\xa0";

/// Why a text has no tokens, under the label of a test's or of a cat file's refusal.
pub fn text_trouble(
    alloc: Global,
    path: &str,
    text: &[u8],
    dialect: Dialect,
    label: &str,
    fault: TextFault,
) -> Result<String, AllocError>
    ensures { IfOk result (λ s. TellsText path.now text.now label.now dialect fault (string_bytes s)) }
{
    let offset = place_of_fault(alloc, text, dialect, fault)?;
    let found = told(alloc, text, dialect, fault, offset)?;
    let told = match fault.label().split_once(' ') {
        Some((number, name)) => format!(in alloc; "{name} ({number}): {found}")?,
        None => found,
    };
    message_at(alloc, path, text, offset, label, told.as_str())
}

/// What is wrong: most of all that a text is no C test at all.
fn told(
    alloc: Global,
    text: &[u8],
    dialect: Dialect,
    fault: TextFault,
    offset: usize,
) -> Result<String, AllocError> {
    if dialect == Dialect::Litmus && fault != TextFault::TooLong {
        if let Some(word) = other_language(text) {
            return not_c(alloc, word);
        }
    }
    match fault {
        TextFault::BadByte => bad_byte(alloc, text, offset, dialect),
        TextFault::NotAscii => not_ascii(alloc, text, offset),
        _ => String::from_str(
            alloc,
            once_before(text, fault, offset).unwrap_or(sentence(dialect, fault)),
        ),
    }
}

/// What is wrong with a byte above 127.
fn not_ascii(alloc: Global, text: &[u8], offset: usize) -> Result<String, AllocError> {
    if text.starts_with(MARK) {
        return String::from_str(
            alloc,
            "the file begins with a byte order mark; save it as UTF-8 without one",
        );
    }
    match text.split_at_checked(offset) {
        Some((_, behind)) if behind.starts_with(NO_BREAK) => String::from_str(
            alloc,
            "the bytes 0xc2 0xa0, a no-break space, may stand in comments alone; write a blank here",
        ),
        Some((_, [byte, ..])) => format!(in alloc;
            "the byte 0x{byte:02x} is above 127, and only comments may have such bytes; write ASCII here"
        ),
        _ => String::from_str(alloc, "only comments may have bytes above 127"),
    }
}

/// What is wrong with a text that begins with another word than `C`.
pub fn not_c(alloc: Global, word: &[u8]) -> Result<String, AllocError> {
    let word = shown(word);
    format!(in alloc;
        "this text begins with {word}, so it is not a C test: a C test begins with a line of C and its name, as C MP"
    )
}

/// The first word of a text, if that is a word of letters and digits, and not `C`.
fn other_language(text: &[u8]) -> Option<&[u8]> {
    let begun = text.trim_ascii_start();
    let mut end = 0usize;
    for byte in begun {
        if !byte.is_ascii_alphanumeric() {
            break;
        }
        end = end.saturating_add(1);
    }
    let (word, _) = begun.split_at_checked(end)?;
    if word.is_empty() || word == b"C".as_slice() {
        return None;
    }
    Some(word)
}

/// What stands for a macro of the kernel whose `(*` opens a comment.
fn once_before(text: &[u8], fault: TextFault, offset: usize) -> Option<&'static str> {
    if fault != TextFault::OpenComment {
        return None;
    }
    let (before, _) = text.split_at_checked(offset)?;
    if before.ends_with(b"WRITE_ONCE") {
        return of_statement(b"WRITE_ONCE");
    }
    if before.ends_with(b"READ_ONCE") {
        return of_statement(b"READ_ONCE");
    }
    None
}

/// What is wrong, and what to do.
fn sentence(dialect: Dialect, fault: TextFault) -> &'static str {
    match fault {
        TextFault::OpenComment => match dialect {
            Dialect::Litmus => {
                "this comment is never closed; (* always opens one, so a plain read in parentheses has to be made before, as in int r = *x;"
            }
            Dialect::Cat =>
                "this comment is never closed; (* always opens one, whatever stands before",
        },
        TextFault::OpenString => "this quoted text is never closed; close it by a second quote",
        TextFault::NumberTooBig => {
            "this number is above 2147483647, the greatest that is taken; write a smaller one"
        }
        TextFault::TooLong => "a text has at most 65536 bytes, and here come more; shorten it",
        _ => "memory ran out",
    }
}
