//! The terminal symbols of the grammar of tests.

ghost use Rattle.std.specs.Prelude.{◌≡◌, IfOk, MatchOption, length, All, true, false};
ghost use Rattle.wb_text.specs.Numbers.{decimal_value};
ghost use Rattle.wb_text.specs.Tokens.{IsWithin};
ghost use Rattle.litmus_syntax.specs.Symbols.{looked_up, signs, words, foreign_words, is_foreign_order, is_foreign_call, is_foreign, is_name, is_number, name_symbol, symbol_by, spelling, is_opened, symbols_of};
ghost use Rattle.litmus_tree.specs.Names.{is_one_of};

use crate::atomics::{Operation, call_named, order_named};
use crate::table::looked_up;
use std::alloc::{AllocError, Global};
use wb_text::{Name, NameFault, Token, TokenKind, decimal};

/// A reserved word, that is none of a call, or a sign.
#[derive(Clone, Copy, PartialEq, Eq)]
pub enum Terminal {
    Int,
    AtomicInt,
    Volatile,
    If,
    Else,
    True,
    False,
    Exists,
    Forall,
    Not,
    Locations,
    LeftParen,
    RightParen,
    LeftBrace,
    RightBrace,
    LeftBracket,
    RightBracket,
    Semicolon,
    Colon,
    Comma,
    Assign,
    Star,
    Tilde,
    /// `!`
    Bang,
    EqualEqual,
    BangEqual,
    AndAnd,
    OrOr,
    /// `/\`
    And,
    /// `\/`
    Or,
    /// `=>`
    Arrow,
}

/// What a token is in the grammar of tests.
pub enum Symbol {
    Fixed(Terminal),
    /// The word of a call.
    Call(Operation),
    Name(Name),
    Number(u32),
    /// A word of a test's head: the language, and the test's name.
    Word(Name),
    /// A word that the language leaves out.
    Foreign(Name),
    /// Any other token that no production takes.
    Other,
}

// A function of its own: whoever holds one drops it by a call.
impl Drop for Symbol {
    fn drop(self) {
        match self {
            Symbol::Fixed(_) => {}
            Symbol::Call(_) => {}
            Symbol::Name(_) => {}
            Symbol::Number(_) => {}
            Symbol::Word(_) => {}
            Symbol::Foreign(_) => {}
            Symbol::Other => {}
        }
    }
}

const SIGNS: [(&[u8], Terminal); 20] = [
    (b"(", Terminal::LeftParen),
    (b")", Terminal::RightParen),
    (b"{", Terminal::LeftBrace),
    (b"}", Terminal::RightBrace),
    (b"[", Terminal::LeftBracket),
    (b"]", Terminal::RightBracket),
    (b";", Terminal::Semicolon),
    (b":", Terminal::Colon),
    (b",", Terminal::Comma),
    (b"=", Terminal::Assign),
    (b"*", Terminal::Star),
    (b"~", Terminal::Tilde),
    (b"!", Terminal::Bang),
    (b"==", Terminal::EqualEqual),
    (b"!=", Terminal::BangEqual),
    (b"&&", Terminal::AndAnd),
    (b"||", Terminal::OrOr),
    (b"/\\", Terminal::And),
    (b"\\/", Terminal::Or),
    (b"=>", Terminal::Arrow),
];

const WORDS: [(&[u8], Terminal); 11] = [
    (b"int", Terminal::Int),
    (b"atomic_int", Terminal::AtomicInt),
    (b"volatile", Terminal::Volatile),
    (b"if", Terminal::If),
    (b"else", Terminal::Else),
    (b"true", Terminal::True),
    (b"false", Terminal::False),
    (b"exists", Terminal::Exists),
    (b"forall", Terminal::Forall),
    (b"not", Terminal::Not),
    (b"locations", Terminal::Locations),
];

/// Words of C and of the kernel that no test has.
const FOREIGN_WORDS: [&[u8]; 11] = [
    b"while",
    b"for",
    b"do",
    b"switch",
    b"goto",
    b"break",
    b"continue",
    b"return",
    b"filter",
    b"READ_ONCE",
    b"WRITE_ONCE",
];

/// The sign of these bytes.
fn sign(bytes: &[u8]) -> Option<Terminal>
    ensures { result ≡ looked_up signs bytes.now }
{
    looked_up(&SIGNS, bytes)
}

/// The reserved word of these bytes.
fn word(bytes: &[u8]) -> Option<Terminal>
    ensures { result ≡ looked_up words bytes.now }
{
    looked_up(&WORDS, bytes)
}

/// Whether the language leaves this word out wherever it stands.
fn is_foreign_word(bytes: &[u8]) -> bool
    ensures { result ≡ is_one_of foreign_words bytes.now }
{
    FOREIGN_WORDS.contains(&bytes)
}

/// Named as an order, and none of the five.
fn is_foreign_order(bytes: &[u8]) -> bool
    ensures { result ≡ is_foreign_order bytes.now }
{
    bytes.starts_with(b"memory_order_") && order_named(bytes).is_none()
}

/// Named as a call.
fn is_foreign_call(bytes: &[u8]) -> bool
    ensures { result ≡ is_foreign_call bytes.now }
{
    bytes.starts_with(b"atomic_") || bytes.starts_with(b"smp_")
}

/// Whether the language leaves a word out, that is no call of its own. `called`: an opening parenthesis stands behind it.
fn is_foreign(called: bool, bytes: &[u8]) -> bool
    ensures { result ≡ is_foreign called bytes.now }
{
    is_foreign_word(bytes) || is_foreign_order(bytes) || (called && is_foreign_call(bytes))
}

/// The name of these bytes, if they are one.
#[tactic(auto, using(crate::proofs::Spelled::is_name_true, crate::proofs::Spelled::is_name_false))]
fn name(alloc: Global, bytes: &[u8]) -> Result<Option<Name>, AllocError>
    ensures { IfOk result (λ o. MatchOption o (is_name bytes.now ≡ false) (λ n. (is_name bytes.now ≡ true) × (n ≡ bytes.now))) }
{
    match Name::new(alloc, bytes) {
        Ok(name) => Ok(Some(name)),
        Err(NameFault::BadName) => Ok(None),
        Err(NameFault::NoMemory) => Err(AllocError),
    }
}

/// The number of these digits, without a leading zero.
fn number(bytes: &[u8]) -> Option<u32>
    ensures { MatchOption result (is_number bytes.now ≡ false) (λ n. (is_number bytes.now ≡ true) × (n ≡ decimal_value bytes.now)) }
{
    if bytes.len() > 1 && bytes[0] == b'0' {
        return None;
    }
    decimal(bytes)
}

fn head_symbol(alloc: Global, bytes: &[u8]) -> Result<Symbol, AllocError>
    ensures { IfOk result (λ s. s ≡ symbol_by TokenKind.Word false bytes.now) }
{
    match name(alloc, bytes)? {
        Some(name) => Ok(Symbol::Word(name)),
        None => Ok(Symbol::Other),
    }
}

fn name_symbol(alloc: Global, called: bool, bytes: &[u8]) -> Result<Symbol, AllocError>
    ensures { IfOk result (λ s. s ≡ name_symbol called bytes.now) }
{
    if is_foreign(called, bytes) {
        return match name(alloc, bytes)? {
            Some(name) => Ok(Symbol::Foreign(name)),
            None => Ok(Symbol::Other),
        };
    }
    if let Some(terminal) = word(bytes) {
        return Ok(Symbol::Fixed(terminal));
    }
    match name(alloc, bytes)? {
        Some(name) => Ok(Symbol::Name(name)),
        None => Ok(Symbol::Other),
    }
}

fn spelled(alloc: Global, kind: TokenKind, called: bool, bytes: &[u8]) -> Result<Symbol, AllocError>
    ensures { IfOk result (λ s. s ≡ symbol_by kind called bytes.now) }
{
    match kind {
        TokenKind::Word => head_symbol(alloc, bytes),
        TokenKind::Name => match call_named(bytes) {
            Some(operation) => Ok(Symbol::Call(operation)),
            None => name_symbol(alloc, called, bytes),
        },
        TokenKind::Number => match number(bytes) {
            Some(number) => Ok(Symbol::Number(number)),
            None => Ok(Symbol::Other),
        },
        TokenKind::Quoted => Ok(Symbol::Other),
        TokenKind::Sign => match sign(bytes) {
            Some(terminal) => Ok(Symbol::Fixed(terminal)),
            None => Ok(Symbol::Other),
        },
    }
}

/// Whether an opening parenthesis stands first.
#[tactic(auto, using(crate::proofs::Spelled::first_within))]
fn is_opened(text: &[u8], tokens: &[Token]) -> bool
    requires { All (IsWithin (length text.now)) tokens.now }
    ensures { result ≡ is_opened text.now tokens.now }
{
    match tokens.split_first() {
        Some((token, _)) => &text[token.from..token.to] == b"(".as_slice(),
        None => false,
    }
}

/// What a token is in the grammar, where `behind` are the tokens behind it.
fn read_symbol(
    alloc: Global,
    text: &[u8],
    token: &Token,
    behind: &[Token],
) -> Result<Symbol, AllocError>
    requires first { IsWithin (length text.now) token.now }
    requires rest { All (IsWithin (length text.now)) behind.now }
    ensures { IfOk result (λ s. s ≡ symbol_by token.now.kind (is_opened text.now behind.now) (spelling text.now token.now)) }
{
    let called = is_opened(text, behind);
    spelled(alloc, token.kind, called, &text[token.from..token.to])
}

/// What the tokens of a text are in the grammar, in order.
#[tactic(auto, using(crate::proofs::Spelled::first_within, crate::proofs::Spelled::rest_within))]
pub fn symbols(alloc: Global, text: &[u8], tokens: &[Token]) -> Result<Vec<Symbol>, AllocError>
    requires { All (IsWithin (length text.now)) tokens.now }
    ensures { IfOk result (λ v. v.items ≡ symbols_of text.now tokens.now) }
{
    let mut symbols = Vec::new(alloc);
    let mut rest = tokens;
    while let Some((token, behind)) = rest.split_first() {
        symbols.push(read_symbol(alloc, text, token, behind)?)?;
        rest = behind;
    }
    Ok(symbols)
}
