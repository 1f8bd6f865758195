//! Tokens that the grammar of tests doesn't take.

ghost use Rattle.std.specs.Prelude.{All, length};
ghost use Rattle.wb_text.specs.Tokens.{IsWithin};

use crate::arguments::of_argument;
use crate::found::{Found, Region, found_at, has_value};
use crate::text::not_c;
use crate::words::{Row, is_among, nearest_known, shown, told_of};
use places::spelled;
use std::alloc::{AllocError, Global};
use wb_text::{Token, TokenKind};

/// What is wrong with the token at an offset, or with the end of the text.
pub fn syntax_sentence(
    alloc: Global,
    text: &[u8],
    tokens: &[Token],
    offset: usize,
) -> Result<String, AllocError>
    requires { All (IsWithin (length text.now)) tokens.now }
{
    match tokens.first() {
        Some(token) => {
            let word = spelled(text, token);
            if word != b"C".as_slice() {
                return not_c(alloc, word);
            }
        }
        None => return String::from_str(alloc, without_tokens(text)),
    }
    match found_at(text, tokens, offset) {
        Some(found) => told(alloc, found),
        None => String::from_str(
            alloc,
            "the test ends here, where more is wanted; last of all comes a condition, as exists (x=1)",
        ),
    }
}

/// What is wrong with a text that has no token.
fn without_tokens(text: &[u8]) -> &'static str {
    if text.is_empty() {
        "the file is empty; a C test begins with a line of C and its name, as C MP"
    } else {
        "the file has blanks and comments alone; a C test begins with a line of C and its name, as C MP"
    }
}

/// A word, and what is wrong with it.
fn about(alloc: Global, word: &[u8], sentence: &str) -> Result<String, AllocError> {
    let word = shown(word);
    format!(in alloc; "{word} {sentence}")
}

/// What is wrong with a token.
fn told(alloc: Global, found: Found<'_>) -> Result<String, AllocError> {
    if let Some((word, sentence)) = known(found) {
        return about(alloc, word, sentence);
    }
    let word = shown(found.word);
    if let Some(known) = nearest_known(alloc, word)? {
        return format!(in alloc; "{word} can't stand here; did you mean {known}?");
    }
    if found.word == b"(".as_slice() {
        return call_told(alloc, shown(found.before));
    }
    about(alloc, found.word, misplaced(found))
}

/// The word that is wrong, the token itself or the one before it, and what is wrong with it, where that is known.
fn known(found: Found<'_>) -> Option<(&[u8], &'static str)> {
    if found.is_suffix && found.kind == TokenKind::Name {
        return Some((
            found.word,
            "can't stand behind a number; numbers are decimal, without a suffix: 1, not 1U or 0x1",
        ));
    }
    if is_of_namespace(found) {
        return Some((
            b"std",
            "can't stand here; calls and orders have no std:: before them, as in memory_order_acquire",
        ));
    }
    if let Some(sentence) = of_type(found.word) {
        return Some((found.word, sentence));
    }
    if let Some(sentence) = of_type(found.before) {
        return Some((found.before, sentence));
    }
    if let Some(sentence) = of_argument(found) {
        return Some((found.word, sentence));
    }
    of_word(found).map(|sentence| (found.word, sentence))
}

/// Whether a token is `std`, or stands behind it in `std::`.
fn is_of_namespace(found: Found<'_>) -> bool {
    let std = b"std".as_slice();
    found.word == std || (found.before == std && found.word == b":".as_slice())
}

/// What is wrong with a token of which no more is known.
fn misplaced(found: Found<'_>) -> &'static str {
    if ends_early(found) {
        "can't stand here; is a ; or a ) missing before it?"
    } else {
        "can't stand here; docs/LITMUS.md has the grammar"
    }
}

/// What is wrong with a parenthesis behind a word that is no call.
fn call_told(alloc: Global, name: &str) -> Result<String, AllocError> {
    match nearest_known(alloc, name)? {
        Some(known) => { format!(in alloc; "{name} is no call of a test; did you mean {known}?") }
        None => format!(in alloc; "( can't stand behind {name}; calls are those of <stdatomic.h>"),
    }
}

/// Words of types that are left out.
const TYPES: [Row; 4] = [
    (
        "unsigned signed long short char bool _Bool float double size_t uint32_t int32_t uint64_t int64_t",
        "is left out; a register is an int, a parameter an int* or an atomic_int*",
    ),
    (
        "_Atomic atomic_uint atomic_long atomic_bool",
        "is left out; write atomic_int* for a parameter that calls access",
    ),
    (
        "void static",
        "is left out; a thread is written P0 (..) { .. }",
    ),
    ("const", "is left out; write the parameter without it"),
];

/// What is wrong with a type that is left out.
fn of_type(word: &[u8]) -> Option<&'static str> {
    told_of(&TYPES, word)
}

/// Signs of threads that stand in a condition.
const IN_CONDITIONS: [Row; 6] = [
    (
        "==",
        "compares in threads; a condition has one =, as in 0:r0=1",
    ),
    ("&& ||", "joins in threads; a condition has /\\ and \\/"),
    ("!", "denies in threads; a condition has ~"),
    (
        "!=",
        "compares in threads; a condition has = alone, and ~ denies, as in ~(0:r0=1)",
    ),
    (
        ",",
        "can't stand here; propositions are joined by /\\ and \\/",
    ),
    (":", NUMBER),
];

/// What is told of a `:` that stands behind no number.
const NUMBER: &str = "can't stand here; a thread's number stands before it, as in 0:r=1";

/// Signs that stand in the initial state.
const IN_INITIAL: [Row; 3] = [
    (
        ",",
        "can't stand here; entries end with ;, as in { x=0; y=0; }",
    ),
    ("==", "compares in threads; an entry has one =, as in x=0"),
    (":", NUMBER),
];

/// Signs that stand in what is listed.
const IN_LISTED: [Row; 2] = [
    (
        ",",
        "can't stand here; entries end with ;, as in locations [x; y;]",
    ),
    (":", NUMBER),
];

/// Signs and words of conditions that stand in a thread.
const IN_THREADS: [Row; 5] = [
    ("=", "can't stand here; an expression compares by =="),
    (
        "/\\ \\/",
        "joins in conditions; an expression has && and ||",
    ),
    (
        "==",
        "can't stand here; it compares inside an expression, and a statement gives a value by =",
    ),
    ("true", "stands in conditions alone; in a thread write 1"),
    ("false", "stands in conditions alone; in a thread write 0"),
];

/// What is wrong with a word or a sign, where that is known.
fn of_word(found: Found<'_>) -> Option<&'static str> {
    match found.word {
        b"*" if found.behind_value => Some(
            "can't stand behind a value; is a ; missing before it? Products are left out",
        ),
        b"*" => Some(
            "can't stand inside an expression; read the location first, as in int r = *x;",
        ),
        b"atomic_int" => Some("can't stand here; a register is an int"),
        b"==" | b"!=" | b"&&" | b"||" if found.is_behind_read() => Some(
            "can't stand here; a load stands alone on the right of =, so load into a register first, and compare that",
        ),
        _ => of_sign(found),
    }
}

/// What is wrong with a call or a sign.
fn of_sign(found: Found<'_>) -> Option<&'static str> {
    if has_value(found.word) {
        return Some(
            "can't stand inside an expression; give its value to a register first, as in int r = atomic_load(x);",
        );
    }
    if found.before == b"if".as_slice() {
        return Some("can't stand behind if; parentheses are wanted, as in if (r == 1)");
    }
    match found.region {
        Region::Initial => told_of(&IN_INITIAL, found.word),
        Region::Threads => told_of(&IN_THREADS, found.word),
        Region::Listed => told_of(&IN_LISTED, found.word),
        Region::Condition => told_of(&IN_CONDITIONS, found.word),
    }
}

/// Whether a statement or a part of one begins behind a token that ends none.
fn ends_early(found: Found<'_>) -> bool {
    let begins = is_among("} int if", found.word) || found.word.starts_with(b"atomic_");
    let goes_on = found.before.is_empty() || is_among("; { } ( , =", found.before);
    begins && !goes_on
}
