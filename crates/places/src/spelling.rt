//! Tokens by their bytes.

ghost use Rattle.std.specs.Prelude.{◌≡◌, All, length, option_map};
ghost use Rattle.std.specs.Str.{bytes_eq};
ghost use Rattle.wb_text.specs.Tokens.{IsWithin};
ghost use Rattle.places.specs.Spellings as spec;

use wb_text::{Token, TokenKind};

/// The bytes of a token.
pub fn spelled<'a>(text: &'a [u8], token: &Token) -> &'a [u8]
    requires { IsWithin (length text.now) token.now }
    ensures { result.now ≡ spec.spelling text.now token.now }
{
    &text[token.from..token.to]
}

/// Whether a token is spelled so.
fn is_spelled(text: &[u8], token: &Token, word: &[u8]) -> bool
    requires { IsWithin (length text.now) token.now }
    ensures { result ≡ bytes_eq (spec.spelling text.now token.now) word.now }
{
    spelled(text, token) == word
}

/// Where the first token begins that is spelled so, if there is one.
pub fn first_spelled(text: &[u8], tokens: &[Token], word: &[u8]) -> Option<usize>
    requires { All (IsWithin (length text.now)) tokens.now }
    ensures { result ≡ option_map (λ t. t.from) (spec.first_spelled text.now tokens.now word.now) }
{
    for token in tokens {
        if is_spelled(text, token, word) {
            return Some(token.from);
        }
    }
    None
}

/// The bytes of the token that begins at an offset, if one does.
pub fn token_at<'a>(text: &'a [u8], tokens: &[Token], offset: usize) -> Option<&'a [u8]>
    requires { All (IsWithin (length text.now)) tokens.now }
    ensures { option_map (λ x. x.now) result ≡ option_map (spec.spelling text.now) (spec.token_at tokens.now offset) }
{
    for token in tokens {
        if token.from == offset {
            return Some(spelled(text, token));
        }
    }
    None
}

/// Whether a token is a word: of a test's head, or a name.
pub fn is_word(token: &Token) -> bool {
    matches!(&token.kind, TokenKind::Word | TokenKind::Name)
}
