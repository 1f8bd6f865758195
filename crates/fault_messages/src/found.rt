//! A token that isn't taken, and what stands before it.

ghost use Rattle.std.specs.Prelude.{All, length};
ghost use Rattle.wb_text.specs.Tokens.{IsWithin};

use crate::words::{CALLS, is_among};
use places::spelled;
use wb_text::{Token, TokenKind};

/// The part of a test that a token stands in.
#[derive(Clone, Copy, PartialEq, Eq)]
pub enum Region {
    /// Up to the initial state's end.
    Initial,
    Threads,
    /// What `locations` lists.
    Listed,
    Condition,
}

/// The token that isn't taken, and those before it.
#[derive(Clone, Copy)]
pub struct Found<'a> {
    pub word: &'a [u8],
    pub kind: TokenKind,
    pub before: &'a [u8],
    /// The token before that.
    pub earlier: &'a [u8],
    /// Whether the one before is a number that ends where this begins.
    pub is_suffix: bool,
    /// Whether the one before ends a value.
    pub behind_value: bool,
    pub region: Region,
    /// Whether a read began behind the last `=` of its statement.
    pub is_read: bool,
    /// The last call of its statement, if there is one.
    pub call: &'a [u8],
    /// How many commas stand behind that.
    pub commas: usize,
}

impl Found<'_> {
    /// Whether a read of a location ends before it.
    pub fn is_behind_read(&self) -> bool {
        self.is_read && (self.before == b")".as_slice() || self.earlier == b"*".as_slice())
    }
}

/// The token that begins at an offset, if one does.
pub fn found_at<'a>(text: &'a [u8], tokens: &[Token], offset: usize) -> Option<Found<'a>>
    requires { All (IsWithin (length text.now)) tokens.now }
{
    let mut before: &[u8] = b"";
    let mut earlier: &[u8] = b"";
    let mut number_end = None;
    let mut behind_value = false;
    let mut region = Region::Initial;
    let mut is_read = false;
    let mut call: &[u8] = b"";
    let mut commas = 0usize;
    for token in tokens {
        let word = spelled(text, token);
        if token.from == offset {
            return Some(Found {
                word,
                kind: token.kind,
                before,
                earlier,
                is_suffix: number_end == Some(offset),
                behind_value,
                region,
                is_read,
                call,
                commas,
            });
        }
        region = region_behind(region, token.kind, word);
        is_read = is_read_behind(is_read, before, word);
        if is_among(CALLS, word) || word == b";".as_slice() {
            call = word;
            commas = 0;
        }
        if word == b",".as_slice() {
            commas = commas.saturating_add(1);
        }
        number_end = match token.kind {
            TokenKind::Number => Some(token.to),
            _ => None,
        };
        behind_value = token.kind != TokenKind::Sign || word == b")".as_slice();
        earlier = before;
        before = word;
    }
    None
}

/// The part of a test behind a token.
fn region_behind(region: Region, kind: TokenKind, word: &[u8]) -> Region {
    if kind == TokenKind::Word {
        return region;
    }
    match word {
        b"}" if region == Region::Initial => Region::Threads,
        b"locations" => Region::Listed,
        b"exists" | b"forall" => Region::Condition,
        _ => region,
    }
}

/// Whether a read has begun behind the last `=`, with one token more.
fn is_read_behind(is_read: bool, before: &[u8], word: &[u8]) -> bool {
    if before == b"=".as_slice() {
        return word == b"*".as_slice() || has_value(word);
    }
    is_read && word != b";".as_slice()
}

/// Whether a word is a call that has a value.
pub fn has_value(word: &[u8]) -> bool {
    word.starts_with(b"atomic_load")
        || word.starts_with(b"atomic_exchange")
        || word.starts_with(b"atomic_fetch_add")
}
