//! Tokens of the two languages.

ghost use Rattle.std.specs.Prelude.{◌≡◌, ◌<◌, ◌↔◌, List, All, Err, IfErr, IfOk, MatchResult, length};
ghost use Rattle.wb_text.specs.Faults.{HasCause};
ghost use Rattle.wb_text.specs.Tokens.{IsTokenList, IsWithin};
ghost use Rattle.wb_text.specs.declared.token.Token.{Token};
ghost use Rattle.wb_text.specs.declared.fault.TextFault.TheVariants.{NoMemory, TooLong};

use crate::fault::TextFault;
use crate::gap::after_gap;
use crate::head::read_head;
use crate::lexeme::first_token;
use std::alloc::Global;

/// The language that a text is written in.
#[derive(Clone, Copy, Debug, PartialEq, Eq)]
pub enum Dialect {
    /// C litmus tests.
    Litmus,
    /// Cat models.
    Cat,
}

/// What a token is.
#[derive(Clone, Copy, Debug, PartialEq, Eq)]
pub enum TokenKind {
    /// A word of a litmus test's head: the language, and the test's name.
    Word,
    /// A name or a reserved word.
    Name,
    /// Decimal digits.
    Number,
    /// A text in double quotes, the quotes included.
    Quoted,
    /// A punctuation sign or an operator.
    Sign,
}

/// A slice of a text: the bytes from `from` up to and without `to`.
#[derive(Clone, Copy, Debug, PartialEq, Eq)]
pub struct Token {
    pub kind: TokenKind,
    pub from: usize,
    pub to: usize,
}

/// The most bytes of a text.
const MOST_BYTES: usize = 65_536;

/// The tokens of a text, in order.
///
/// Refuses with the first fault from the left, but `TooLong` before all others.
pub fn tokens(alloc: Global, text: &[u8], dialect: Dialect) -> Result<Vec<Token>, TextFault>
    // The tokens are slices of the text.
    ensures within { IfOk result (λ v. All (IsWithin (length text.now)) v.items) }
    // They are a token list of the text.
    ensures found { IfOk result (λ v. IsTokenList dialect text.now v.items) }
    // A text that has a token list has this one alone, and is refused only for want of memory.
    ensures only { (ts : List Token) → IsTokenList dialect text.now ts → MatchResult result (λ v. v.items ≡ ts) (λ e. e ≡ NoMemory) }

    ensures too_long { (result ≡ Err TooLong) ↔ (65536 < length text.now) }
    // Each fault comes only where its cause stands.
    ensures cause { IfErr result (λ e. HasCause dialect text.now e) }
{
    if text.len() > MOST_BYTES {
        return Err(TextFault::TooLong);
    }
    let mut tokens = Vec::new(alloc);
    let mut rest = read_head(text, dialect, &mut tokens)?;
    loop {
        let next = after_gap(rest, dialect)?;
        if next.is_empty() {
            return Ok(tokens);
        }
        let (kind, len) = first_token(next, dialect)?;
        let from = text.len() - next.len();
        tokens.push(Token {
            kind,
            from,
            to: from + len,
        })?;
        rest = &next[len..];
    }
}
