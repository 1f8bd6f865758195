//! The place of a fault of a cat text.

ghost use Rattle.std.specs.Prelude.{◌≡◌, ◌≢◌, ◌<◌, ℕ, All, IfOk, OnOk, IfSome, MatchOption, length, true, false};
ghost use Rattle.wb_text.specs.Tokens.{IsWithin};
ghost use Rattle.cat_syntax.specs.Reads.{IsRefused};
ghost use Rattle.cat_syntax.specs.declared.fault.CatFault.TheVariants.{NoMemory};
ghost use Rattle.wb_text.specs.declared.fault.TextFault.TheVariants.{NoMemory as NoTextMemory};
ghost use Rattle.cat_places.specs.Own.{IsFileOf};
ghost use Rattle.cat_places.specs.Fronts.{HasNoPlace, IsFirstRefused, NoneRefused, IsLastSpelled, NoneSpelled, IsToldAt, IsAtFront, IsTextPlace};

use cat_syntax::{CatFault, CatFile, read_cat};
use places::{place_of_fault, spelled};
use std::alloc::{AllocError, Global};
use wb_text::{Dialect, TextFault, Token, tokens};

/// Where the fault of a cat text stands, in bytes from its beginning; none where the text doesn't have it, or memory ran out.
pub fn place_of_text(
    alloc: Global,
    text: &[u8],
    fault: &CatFault,
) -> Result<Option<usize>, AllocError>
    ensures { IfOk result (λ o. MatchOption o ((offset : ℕ) → ¬ IsTextPlace text.now fault.now offset) (IsTextPlace text.now fault.now)) }
{
    match fault {
        CatFault::Text(cause) => Ok(Some(place_of_fault(alloc, text, Dialect::Cat, *cause)?)),
        CatFault::Syntax(offset) => Ok(Some(*offset)),
        CatFault::NoMemory => Ok(None),
        CatFault::Unsupported(_) => place_among(alloc, text, fault),
        CatFault::TooDeep => place_among(alloc, text, fault),
        CatFault::TooLarge => place_among(alloc, text, fault),
    }
}

/// The same for a fault that stands at a token.
fn place_among(alloc: Global, text: &[u8], fault: &CatFault) -> Result<Option<usize>, AllocError>
    requires { HasNoPlace fault.now }
    ensures { IfOk result (λ o. MatchOption o ((offset : ℕ) → ¬ IsAtFront text.now fault.now offset) (IsAtFront text.now fault.now)) }
{
    match tokens(alloc, text, Dialect::Cat) {
        Ok(tokens) => {
            match last_of_front(alloc, text, &tokens, fault)? {
                Some(place) => return Ok(told_at(text, &tokens, place, fault)),
                None => return Ok(None),
            }
        }
        Err(found) => {
            has_memory(found)?;
            return Ok(None);
        }
    }
}

/// Whether a fault is the text's own.
pub fn has_memory(fault: TextFault) -> Result<(), AllocError>
    ensures { OnOk result (fault ≢ NoTextMemory) }
{
    match fault {
        TextFault::NoMemory => Err(AllocError),
        _ => Ok(()),
    }
}

/// Whether a fault is the text's own.
fn in_memory(fault: &CatFault) -> Result<(), AllocError>
    ensures { OnOk result (fault.now ≢ NoMemory) }
{
    match fault {
        CatFault::NoMemory => Err(AllocError),
        _ => Ok(()),
    }
}

/// The file that a text reads as, if it is a cat file.
pub fn file_of(alloc: Global, text: &[u8]) -> Result<Option<CatFile>, AllocError>
    ensures { IfOk result (IsFileOf text.now) }
{
    match read_cat(alloc, text) {
        Ok(file) => return Ok(Some(file)),
        Err(found) => {
            in_memory(&found)?;
            return Ok(None);
        }
    }
}

/// Whether a text is refused for this fault.
fn is_refused(alloc: Global, text: &[u8], fault: &CatFault) -> Result<bool, AllocError>
    requires { HasNoPlace fault.now }
    ensures yes { IfOk result (λ b. b ≡ true → IsRefused text.now fault.now) }
    ensures no { IfOk result (λ b. b ≡ false → ¬ IsRefused text.now fault.now) }
{
    match read_cat(alloc, text) {
        Ok(_file) => return Ok(false),
        Err(found) => {
            in_memory(&found)?;
            return Ok(found == *fault);
        }
    }
}

/// The last token of the shortest front of a text that is refused for this fault. Fronts end where tokens do.
fn last_of_front(
    alloc: Global,
    text: &[u8],
    tokens: &[Token],
    fault: &CatFault,
) -> Result<Option<usize>, AllocError>
    requires within { All (IsWithin (length text.now)) tokens.now }
    requires fault { HasNoPlace fault.now }
    ensures place { IfOk result (λ o. IfSome o (λ k. k < length tokens.now)) }
    ensures first { IfOk result (λ o. MatchOption o (NoneRefused text.now tokens.now fault.now) (IsFirstRefused text.now tokens.now fault.now)) }
{
    for (place, token) in tokens.iter().enumerate() {
        if is_refused(alloc, &text[..token.to], fault)? {
            return Ok(Some(place));
        }
    }
    Ok(None)
}

/// Where the last token up to a place begins that is spelled so.
fn last_spelled(text: &[u8], tokens: &[Token], place: usize, word: &[u8]) -> Option<usize>
    requires within { All (IsWithin (length text.now)) tokens.now }
    requires place { place < length tokens.now }
    ensures { MatchOption result (NoneSpelled text.now tokens.now word.now 0 place) (IsLastSpelled text.now tokens.now word.now place) }
{
    let mut end = place + 1;
    while end > 0 {
        let token = tokens[end - 1];
        if spelled(text, &token) == word {
            return Some(token.from);
        }
        end -= 1;
    }
    None
}

/// Where the token begins that the fault is about: the last of a front, or the word that the fault names.
fn told_at(text: &[u8], tokens: &[Token], place: usize, fault: &CatFault) -> Option<usize>
    requires within { All (IsWithin (length text.now)) tokens.now }
    requires place { place < length tokens.now }
    requires fault { HasNoPlace fault.now }
    ensures { MatchOption result ((offset : ℕ) → ¬ IsToldAt text.now tokens.now fault.now place offset) (IsToldAt text.now tokens.now fault.now place) }
{
    match fault {
        CatFault::Unsupported(word) => last_spelled(text, tokens, place, word.bytes()),
        CatFault::TooDeep => Some(tokens[place].from),
        CatFault::TooLarge => Some(tokens[place].from),
        CatFault::Text(_) => None,
        CatFault::Syntax(_) => None,
        CatFault::NoMemory => None,
    }
}
