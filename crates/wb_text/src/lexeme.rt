//! The token that a text begins with.

ghost use Rattle.std.specs.Prelude.{◌≡◌, ◌≢◌, ◌≤◌, ◌<◌, false, length, slice_index, take, All, IfErr, IfOk};
ghost use Rattle.std.specs.List.{prefix_len};
ghost use Rattle.wb_text.specs.declared.fault.TextFault.TheVariants.{NumberTooBig};
ghost use Rattle.wb_text.specs.declared.token.Dialect.{Dialect};
ghost use Rattle.wb_text.specs.declared.token.TokenKind.TheVariants.{Word, Quoted};
ghost use Rattle.wb_text.specs.Bytes.{is_digit};
ghost use Rattle.wb_text.specs.Faults.{IsTokenFault, NoToken};
ghost use Rattle.wb_text.specs.Gaps.{opens_comment};
ghost use Rattle.wb_text.specs.Numbers.{decimal_value};
ghost use Rattle.wb_text.specs.Tokens.{BeginsToken, IsLongest};

use crate::byte::{Class, is_digit, is_name_start, run_len};
use crate::fault::TextFault;
use crate::gap::after_quoted;
use crate::number::decimal;
use crate::sign::sign_len;
use crate::token::{Dialect, TokenKind};

/// The kind and the length of the token that a text begins with.
pub fn first_token(text: &[u8], dialect: Dialect) -> Result<(TokenKind, usize), TextFault>
    requires here { 0 < length text.now }
    requires apart { opens_comment dialect text.now ≡ false }
    ensures token { IfOk result (λ t. (t.0 ≢ Word) × BeginsToken dialect t.0 text.now t.1) }
    ensures none { IfErr result (λ e. NoToken dialect text.now) }
    ensures cause { IfErr result (λ e. IsTokenFault dialect text.now e) }
{
    let first = text[0];
    if is_digit(first) {
        Ok((TokenKind::Number, number_len(text)?))
    } else if is_name_start(first) {
        Ok((TokenKind::Name, run_len(text, Class::Name(dialect))))
    } else if first == b'"' {
        Ok((TokenKind::Quoted, quoted_len(text)?))
    } else {
        let len = sign_len(text, dialect);
        if len > 0 {
            Ok((TokenKind::Sign, len))
        } else if first > 127 {
            Err(TextFault::NotAscii)
        } else {
            Err(TextFault::BadByte)
        }
    }
}

/// The length of the number that a text begins with.
fn number_len(text: &[u8]) -> Result<usize, TextFault>
    ensures run { IfOk result (λ len. len ≡ prefix_len is_digit text.now) }
    ensures small { IfOk result (λ len. decimal_value (take len text.now) ≤ 2147483647) }
    ensures big { 0 < prefix_len is_digit text.now → IfErr result (λ e. (e ≡ NumberTooBig) × (2147483647 < decimal_value (take (prefix_len is_digit text.now) text.now))) }
{
    let len = run_len(text, Class::Digit);
    match decimal(&text[..len]) {
        Some(_) => Ok(len),
        None => Err(TextFault::NumberTooBig),
    }
}

/// The length of the quoted text that a text begins with.
fn quoted_len(text: &[u8]) -> Result<usize, TextFault>
    requires here { 0 < length text.now }
    requires quote { slice_index text.now 0 ≡ 34 }
    ensures len { IfOk result (λ len. (dialect : Dialect) → IsLongest dialect Quoted text.now len) }
    ensures ascii { IfOk result (λ len. All (λ b. b ≤ 127) (take len text.now)) }
    ensures none { IfErr result (λ e. (dialect : Dialect) → NoToken dialect text.now) }
    ensures cause { IfErr result (λ e. (dialect : Dialect) → IsTokenFault dialect text.now e) }
{
    let Some(after) = after_quoted(&text[1..]) else {
        return Err(TextFault::OpenString);
    };
    let len = text.len() - after.len();
    if text[..len].is_ascii() {
        Ok(len)
    } else {
        Err(TextFault::NotAscii)
    }
}
