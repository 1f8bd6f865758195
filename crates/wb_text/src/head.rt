//! The head of a test: its language, its name, and the information up to the first `{`.

ghost use Rattle.std.specs.Prelude.{◌≡◌, ◌≢◌, ◌≤◌, ◌<◌, ℕ, List, ◌++◌, length, drop, IfErr, IfOk, MatchOption};
ghost use Rattle.wb_text.specs.declared.fault.TextFault.TheVariants.{NoMemory, NotAscii, OpenComment};
ghost use Rattle.wb_text.specs.declared.token.Dialect.TheVariants.{Litmus};
ghost use Rattle.wb_text.specs.declared.token.Token.{Token};
ghost use Rattle.wb_text.specs.declared.token.TokenKind.TheVariants.{Word};
ghost use Rattle.wb_text.specs.Faults.{IsNotAscii, IsInformationFault, HasTitleFault, HasHeadFault};
ghost use Rattle.wb_text.specs.Gaps.{IsGap, IsOpenComment};
ghost use Rattle.wb_text.specs.Tokens.{BeginsRun, BeginsToken, IsBody, IsHead, IsInformation, IsSameLine, IsTitle, token_at};

use crate::byte::{Class, run_len};
use crate::fault::TextFault;
use crate::gap::{after_comment, after_gap, after_quoted};
use crate::token::{Dialect, Token, TokenKind};
use memchr::memchr;

/// Pushes the words of a text's head, and gives what follows it.
pub fn read_head<'a>(
    text: &'a [u8],
    dialect: Dialect,
    tokens: &mut Vec<Token>,
) -> Result<&'a [u8], TextFault>
    ensures head { IfOk result (λ rest. (words : List Token) × IsHead (length text.now) dialect text.now words rest.now × (tokens.new.items ≡ tokens.old.items ++ words)) }
    ensures none { IfErr result (λ e. e ≢ NoMemory → (words : List Token) (rest : List ℕ) → ¬ IsHead (length text.now) dialect text.now words rest) }
    ensures cause { IfErr result (λ e. e ≢ NoMemory → (dialect ≡ Litmus) × HasHeadFault text.now e) }
{
    match dialect {
        Dialect::Litmus => read_words(text, tokens),
        Dialect::Cat => Ok(text),
    }
}

/// Pushes the words of a test's head, and gives what follows it: a `{` and more, or nothing.
fn read_words<'a>(text: &'a [u8], tokens: &mut Vec<Token>) -> Result<&'a [u8], TextFault>
    ensures head { IfOk result (λ rest. (words : List Token) × IsHead (length text.now) Litmus text.now words rest.now × (tokens.new.items ≡ tokens.old.items ++ words)) }
    ensures none { IfErr result (λ e. e ≢ NoMemory → (words : List Token) (rest : List ℕ) → ¬ IsHead (length text.now) Litmus text.now words rest) }
    ensures cause { IfErr result (λ e. e ≢ NoMemory → HasHeadFault text.now e) }
{
    let language = after_gap(text, Dialect::Litmus)?;
    if language.is_empty() {
        return Ok(language);
    }
    let len = word_len(language)?;
    tokens.push(word(text.len(), language, len))?;
    read_title(text.len(), &language[len..], tokens)
}

/// Pushes the name of a test if it stands on the line, and gives what follows the information.
fn read_title<'a>(
    total: usize,
    text: &'a [u8],
    tokens: &mut Vec<Token>,
) -> Result<&'a [u8], TextFault>
    requires { length text.now ≤ total }
    ensures title { IfOk result (λ rest. (names : List Token) × IsTitle total text.now names rest.now × (tokens.new.items ≡ tokens.old.items ++ names)) }
    ensures none { IfErr result (λ e. e ≢ NoMemory → (names : List Token) (rest : List ℕ) → ¬ IsTitle total text.now names rest) }
    ensures cause { IfErr result (λ e. e ≢ NoMemory → HasTitleFault text.now e) }
{
    let Some(name) = on_same_line(text)? else {
        return after_information(text);
    };
    let len = word_len(name)?;
    tokens.push(word(total, name, len))?;
    after_information(&name[len..])
}

/// The word of `len` bytes that `rest`, the end of `total` bytes, begins with.
fn word(total: usize, rest: &[u8], len: usize) -> Token
    requires within { length rest.now ≤ total }
    requires here { len ≤ length rest.now }
    ensures { result ≡ token_at total Word rest.now len }
{
    let from = total - rest.len();
    Token {
        kind: TokenKind::Word,
        from,
        to: from + len,
    }
}

/// The length of the word that a text begins with.
fn word_len(text: &[u8]) -> Result<usize, TextFault>
    requires { BeginsRun text.now }
    ensures word { IfOk result (λ n. BeginsToken Litmus Word text.now n) }
    ensures none { IfErr result (λ e. (n : ℕ) → ¬ BeginsToken Litmus Word text.now n) }
    ensures cause { IfErr result (λ e. (e ≡ NotAscii) × IsNotAscii Litmus Word text.now) }
{
    let len = run_len(text, Class::Word);
    if text[..len].is_ascii() {
        Ok(len)
    } else {
        Err(TextFault::NotAscii)
    }
}

/// Where the next run begins, if that is on the same line.
fn on_same_line(text: &[u8]) -> Result<Option<&[u8]>, TextFault>
    ensures run { IfOk result (λ o. MatchOption o
        ((next : List ℕ) → IsSameLine text.now next → ¬ BeginsRun next)
        (λ next. IsSameLine text.now next.now × BeginsRun next.now)) }
    ensures open { IfErr result (λ e. (e ≡ OpenComment) × ((rest : List ℕ) × IsGap Litmus text.now rest × IsOpenComment Litmus rest)) }
{
    let next = after_gap(text, Dialect::Litmus)?;
    if next.is_empty() {
        return Ok(None);
    }
    match memchr(b'\n', &text[..text.len() - next.len()]) {
        Some(_) => Ok(None),
        None => Ok(Some(next)),
    }
}

/// What follows the information: a `{` outside comments and quoted texts and more, or nothing.
fn after_information(text: &[u8]) -> Result<&[u8], TextFault>
    ensures information { IfOk result (λ rest. IsInformation text.now rest.now × IsBody rest.now) }
    ensures none { IfErr result (λ e. (rest : List ℕ) → IsInformation text.now rest → ¬ IsBody rest) }
    ensures fault { IfErr result (λ e. e ≢ NoMemory) }
    ensures cause { IfErr result (λ e. (rest : List ℕ) × IsInformation text.now rest × IsInformationFault rest e) }
{
    let mut rest = text;
    while !rest.is_empty() && rest[0] != b'{' {
        if rest[0] == b'"' {
            let Some(after) = after_quoted(&rest[1..]) else {
                return Err(TextFault::OpenString);
            };
            rest = after;
        } else if let Some(after) = after_comment(rest, Dialect::Litmus)? {
            rest = after;
        } else {
            rest = &rest[1..];
        }
    }
    Ok(rest)
}
