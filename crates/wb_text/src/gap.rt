//! Blanks and comments.

ghost use Rattle.std.specs.Prelude.{◌≡◌, ◌≤◌, ◌<◌, List, ℕ, false, length, IfErr, IfOk, MatchOption, MatchResult};
ghost use Rattle.wb_text.specs.declared.fault.TextFault.TheVariants.{OpenComment};
ghost use Rattle.wb_text.specs.Gaps.{IsBlock, IsComment, IsGap, IsGapEnd, IsLine, IsNested, IsOpenComment, IsQuoted, opens_comment};

use crate::byte::begins_blank;
use crate::fault::TextFault;
use crate::token::Dialect;
use memchr::{memchr, memmem};

/// What follows the blanks and comments that a text begins with.
pub fn after_gap(text: &[u8], dialect: Dialect) -> Result<&[u8], TextFault>
    ensures gap { IfOk result (λ rest. IsGap dialect text.now rest.now) }
    ensures all { IfOk result (λ rest. IsGapEnd dialect rest.now) }
    ensures open { IfErr result (λ e. (e ≡ OpenComment) × ((rest : List ℕ) × IsGap dialect text.now rest × IsOpenComment dialect rest)) }
{
    let mut rest = text;
    loop {
        if begins_blank(rest) {
            rest = &rest[1..];
        } else if let Some(after) = after_comment(rest, dialect)? {
            rest = after;
        } else {
            return Ok(rest);
        }
    }
}

/// What follows the comment that a text opens, if it opens one.
pub fn after_comment(text: &[u8], dialect: Dialect) -> Result<Option<&[u8]>, TextFault>
    ensures { MatchResult result
        (λ o. MatchOption o (opens_comment dialect text.now ≡ false) (λ rest. IsComment dialect text.now rest.now))
        (λ e. (e ≡ OpenComment) × IsOpenComment dialect text.now) }
{
    if text.starts_with(b"(*") {
        Ok(Some(after_nested(&text[2..])?))
    } else if text.starts_with(b"//") {
        Ok(Some(from_line_end(&text[2..])))
    } else if dialect == Dialect::Litmus && text.starts_with(b"/*") {
        Ok(Some(after_block(&text[2..])?))
    } else {
        Ok(None)
    }
}

/// What follows the `*)` of a comment whose `(*` stands before `inside`.
fn after_nested(inside: &[u8]) -> Result<&[u8], TextFault>
    ensures { MatchResult result (λ rest. IsNested inside.now rest.now) (λ e. (e ≡ OpenComment) × ((rest : List ℕ) → ¬ IsNested inside.now rest)) }
{
    let mut rest = inside;
    let mut depth = 1usize;
    while depth > 0 {
        if rest.starts_with(b"(*") {
            depth += 1;
            rest = &rest[2..];
        } else if rest.starts_with(b"*)") {
            depth -= 1;
            rest = &rest[2..];
        } else if rest.is_empty() {
            return Err(TextFault::OpenComment);
        } else {
            rest = &rest[1..];
        }
    }
    Ok(rest)
}

/// The line feed and what follows it.
fn from_line_end(line: &[u8]) -> &[u8]
    ensures { IsLine line.now result.now }
{
    match memchr(b'\n', line) {
        Some(feed) => &line[feed..],
        None => &[],
    }
}

/// What follows the first `*/`.
fn after_block(inside: &[u8]) -> Result<&[u8], TextFault>
    ensures { MatchResult result (λ rest. IsBlock inside.now rest.now) (λ e. (e ≡ OpenComment) × ((rest : List ℕ) → ¬ IsBlock inside.now rest)) }
{
    match memmem::find(inside, b"*/") {
        Some(end) => Ok(&inside[end + 2..]),
        None => Err(TextFault::OpenComment),
    }
}

/// What follows the next `"`.
pub fn after_quoted(inside: &[u8]) -> Option<&[u8]>
    ensures { MatchOption result ((rest : List ℕ) → ¬ IsQuoted inside.now rest) (λ rest. IsQuoted inside.now rest.now) }
{
    match memchr(b'"', inside) {
        Some(end) => Some(&inside[end + 1..]),
        None => None,
    }
}
