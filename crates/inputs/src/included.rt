//! The names of the files that a cat text includes, as they are written there.

use std::alloc::{AllocError, Global};
use wb_text::{Dialect, Name, NameFault, TextFault, Token, TokenKind, tokens};

/// The most bytes of a name that a book can have.
const MOST_BYTES: usize = 64;

/// Where the name of an included file stands in a text, with its quotes.
#[derive(Clone, Copy)]
pub(crate) struct Included {
    from: usize,
    to: usize,
}

impl Included {
    /// All of a text, in their order. A text that has no tokens includes none; a byte above 127 counts as a letter, since the name of a file may have it.
    pub(crate) fn all(alloc: Global, text: &[u8]) -> Result<Vec<Self>, AllocError> {
        let mut plain = Vec::from_slice(alloc, text)?;
        for byte in plain.iter_mut() {
            if !byte.is_ascii() {
                *byte = b'_';
            }
        }
        match tokens(alloc, &plain, Dialect::Cat) {
            Ok(tokens) => Included::among(alloc, text, &tokens),
            Err(TextFault::NoMemory) => Err(AllocError),
            Err(_) => Ok(Vec::new(alloc)),
        }
    }

    /// Those among the tokens of a text: what is quoted behind the word `include`.
    fn among(alloc: Global, text: &[u8], tokens: &[Token]) -> Result<Vec<Self>, AllocError> {
        let mut found = Vec::new(alloc);
        let mut is_included = false;
        for token in tokens {
            let Token { kind, from, to } = *token;
            if is_included && kind == TokenKind::Quoted {
                found.push(Included { from, to })?;
            }
            is_included = text.get(from..to) == Some(b"include".as_slice());
        }
        Ok(found)
    }

    /// The name as it is written. It is empty where it isn't UTF-8, or has a line's end: a stand-in would move the lines behind.
    pub(crate) fn written(self, text: &[u8]) -> &str {
        match text.get(self.from..self.to) {
            Some([b'"', name @ .., b'"']) if !name.contains(&b'\n') => {
                std::str::from_utf8(name).unwrap_or("")
            }
            _ => "",
        }
    }

    /// The name that stands for the written one in a book, which is put in the place of that. There is none where no name is written.
    pub(crate) fn replace(
        self,
        alloc: Global,
        text: &mut [u8],
    ) -> Result<Option<Name>, AllocError> {
        match text.get_mut(self.from.saturating_add(1)..self.to) {
            Some(quoted) => stand_in(alloc, quoted),
            None => Ok(None),
        }
    }
}

/// Makes a name that a book can have of one that stands before a closing quote: its last 64 bytes, with `_` for each that no name can have. Bytes that get free become blanks behind the quote.
fn stand_in(alloc: Global, quoted: &mut [u8]) -> Result<Option<Name>, AllocError> {
    let name_len = quoted.len().saturating_sub(1).min(MOST_BYTES);
    quoted.rotate_left(quoted.len().saturating_sub(MOST_BYTES + 1));
    for (at, byte) in quoted.iter_mut().enumerate() {
        if at > MOST_BYTES {
            *byte = b' ';
        } else if !byte.is_ascii_graphic() {
            *byte = b'_';
        }
    }
    match Name::new(alloc, &quoted[..name_len]) {
        Ok(name) => Ok(Some(name)),
        Err(NameFault::NoMemory) => Err(AllocError),
        Err(NameFault::BadName) => Ok(None),
    }
}
