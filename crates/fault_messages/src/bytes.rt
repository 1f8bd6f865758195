//! Bytes that begin no token.

use std::alloc::{AllocError, Global};
use wb_text::Dialect;

/// What is wrong with the byte at an offset, which begins no token.
pub fn bad_byte(
    alloc: Global,
    text: &[u8],
    offset: usize,
    dialect: Dialect,
) -> Result<String, AllocError> {
    match text.split_at_checked(offset) {
        Some((before, [byte, behind @ ..])) => match told(before, *byte, behind, dialect) {
            Some(sentence) => String::from_str(alloc, sentence),
            None => unknown(alloc, *byte, dialect),
        },
        _ => String::from_str(alloc, "no token begins here"),
    }
}

/// What is wrong with a byte, by those around it.
fn told(before: &[u8], byte: u8, behind: &[u8], dialect: Dialect) -> Option<&'static str> {
    match dialect {
        Dialect::Litmus => beside(before, byte, behind).or(of_tests(byte)),
        Dialect::Cat if byte == b'-' && behind.starts_with(b">") => Some(
            "-> is left out, and fun with it; bind a function by let, as in let f(x) = x ; po",
        ),
        Dialect::Cat => of_models(byte),
    }
}

/// What is wrong with a byte of which no more is known; one that isn't seen is told by its number.
fn unknown(alloc: Global, byte: u8, dialect: Dialect) -> Result<String, AllocError> {
    let of = match dialect {
        Dialect::Litmus => "a test",
        Dialect::Cat => "a model",
    };
    match byte {
        33..=126 => { format!(in alloc; "no token of {of} begins with this byte; take it away") }
        _ => format!(in alloc; "the byte 0x{byte:02x} begins no token of {of}; take it away"),
    }
}

/// What is wrong in a test with bytes that belong together.
fn beside(before: &[u8], byte: u8, behind: &[u8]) -> Option<&'static str> {
    let next = behind.first().copied().unwrap_or(0);
    match byte {
        b'-' if next == b'>' => Some(MEMBERS),
        b'.' if next.is_ascii_alphabetic() => Some(MEMBERS),
        b'-' if next.is_ascii_digit() && !ends_value(before) => {
            Some("values are 0 to 2147483647, and none is negative; write another number")
        }
        b'<' if next == b'>' => Some(
            "<> is no sign of a test; write ~(0:r=1) in a condition, and r != 1 in a thread",
        ),
        _ => None,
    }
}

/// What is told of a member.
const MEMBERS: &str =
    "members are left out; calls are those of <stdatomic.h>, as in atomic_load(x)";

/// Whether the last of these bytes that is no blank ends a value.
fn ends_value(before: &[u8]) -> bool {
    let mut last = b' ';
    for byte in before {
        if !byte.is_ascii_whitespace() {
            last = *byte;
        }
    }
    last.is_ascii_alphanumeric() || last == b'_' || last == b')'
}

/// What is wrong with a byte in a test.
fn of_tests(byte: u8) -> Option<&'static str> {
    let sentence = match byte {
        b'+' | b'-' => {
            "arithmetic is left out; write the value itself, or add to a location by atomic_fetch_add(x, 1)"
        }
        b'%' | b'/' | b'^' => "arithmetic is left out; write the value itself",
        b'&' => {
            "a single & is left out; a parameter is a pointer already, so write x for &x, and && for a conjunction"
        }
        b'|' => "a single | is left out; write || for a disjunction",
        b'<' | b'>' => "only == and != compare; name the values, as in r == 1 || r == 2",
        b'#' =>
            "preprocessor lines are left out; take the line away, and write out what it defines",
        b'?' => "the conditional operator is left out; write if and else",
        b'.' => "only whole numbers are taken, and no members of structures",
        b'\'' => "characters are left out; write the number",
        b'\\' => r"a \ begins only \/, the disjunction of conditions",
        _ => return None,
    };
    Some(sentence)
}

/// The same in a model.
fn of_models(byte: u8) -> Option<&'static str> {
    let sentence = match byte {
        b'-' => "a - stands only inside names, as in po-loc; a difference is written a \\ b",
        b'^' => "a ^ begins only ^-1, the inverse",
        b'<' | b'>' | b'!' => "relations aren't compared; acyclic, irreflexive and empty test them",
        b'#' => "comments are (* .. *) and //, and # begins none",
        b'\'' => "a name has letters, digits, _, . and -; give it another",
        b'/' =>
            "a / begins only //, a comment to the end of the line; a difference is written a \\ b",
        _ => return None,
    };
    Some(sentence)
}
