//! Where a text that has no tokens is wrong.

ghost use Rattle.std.specs.Prelude.{◌≡◌, ◌≢◌, ◌≤◌, IfOk, OnOk, length, nat_lt, true, false};
ghost use Rattle.std.specs.List.{position_or_len, suffix_len};
ghost use Rattle.wb_text.specs.Bytes.{is_digit};
ghost use Rattle.wb_text.specs.declared.fault.TextFault.TheVariants.{NoMemory};
ghost use Rattle.places.specs.Fronts.{FrontHasTokens, IsLongestFront, IsFaultAt, faulty_byte};

use std::alloc::{AllocError, Global};
use wb_text::{Dialect, TextFault, tokens};

/// The most bytes of a text.
const MOST_BYTES: usize = 65_536;

/// Whether the front of a text, up to an offset, has tokens.
fn front_has_tokens(
    alloc: Global,
    text: &[u8],
    dialect: Dialect,
    end: usize,
) -> Result<bool, AllocError>
    requires { end ≤ length text.now }
    ensures yes { IfOk result (λ b. b ≡ true → FrontHasTokens dialect text.now end) }
    ensures no { IfOk result (λ b. b ≡ false → ¬ FrontHasTokens dialect text.now end) }
{
    match tokens(alloc, &text[..end], dialect) {
        Ok(_found) => return Ok(true),
        Err(fault) => {
            in_memory(fault)?;
            return Ok(false);
        }
    }
}

/// Whether a fault is the text's own.
fn in_memory(fault: TextFault) -> Result<(), AllocError>
    ensures { OnOk result (fault ≢ NoMemory) }
{
    match fault {
        TextFault::NoMemory => Err(AllocError),
        _ => Ok(()),
    }
}

/// How long the longest front of a text is that has tokens.
fn longest_front(alloc: Global, text: &[u8], dialect: Dialect) -> Result<usize, AllocError>
    ensures { IfOk result (IsLongestFront dialect text.now) }
{
    let mut end = text.len();
    while end > 0 {
        if front_has_tokens(alloc, text, dialect, end)? {
            return Ok(end);
        }
        end -= 1;
    }
    Ok(0)
}

/// How many digits stand last.
fn last_digits(bytes: &[u8]) -> usize
    ensures value { result ≡ suffix_len is_digit bytes.now }
    ensures within { result ≤ length bytes.now }
{
    let mut start = bytes.len();
    while start > 0 {
        if !bytes[start - 1].is_ascii_digit() {
            return bytes.len() - start;
        }
        start -= 1;
    }
    bytes.len()
}

/// How many bytes stand before the first that is above 127.
fn first_above(bytes: &[u8]) -> usize
    ensures value { result ≡ position_or_len (λ b. nat_lt 127 b) bytes.now }
    ensures within { result ≤ length bytes.now }
{
    for (at, byte) in bytes.iter().enumerate() {
        if *byte > 127 {
            return at;
        }
    }
    bytes.len()
}

/// The byte that a fault is about, behind the longest front that has tokens.
fn faulty_byte(fault: TextFault, text: &[u8], end: usize) -> usize
    requires { end ≤ length text.now }
    ensures { result ≡ faulty_byte fault text.now end }
{
    match fault {
        TextFault::NotAscii => end + first_above(&text[end..]),
        TextFault::OpenComment => match text.get(end) {
            Some(b'*') => end.saturating_sub(1),
            _ => end,
        },
        TextFault::NumberTooBig => end - last_digits(&text[..end]),
        _ => end,
    }
}

/// Where the fault stands that a text without tokens is refused for.
pub fn place_of_fault(
    alloc: Global,
    text: &[u8],
    dialect: Dialect,
    fault: TextFault,
) -> Result<usize, AllocError>
    ensures { IfOk result (IsFaultAt dialect text.now fault) }
{
    if fault == TextFault::TooLong {
        return Ok(MOST_BYTES);
    }
    let end = longest_front(alloc, text, dialect)?;
    Ok(faulty_byte(fault, text, end))
}
