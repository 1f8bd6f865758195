//! The terminal symbols of the grammar.

ghost use Rattle.std.specs.Prelude.{◌≡◌, true, false, length, All, IfOk, MatchOption};
ghost use Rattle.wb_text.specs.Names.{IsName};
ghost use Rattle.std.specs.List.{list_all};
ghost use Rattle.wb_text.specs.Tokens.{IsWithin};
ghost use Rattle.cat_syntax.specs.Symbols.{is_printable as spells_printable, is_name as spells_name, spelling_of, terminal_of as terminal_written, inside, bytes_of, symbol_of, symbols_of};

use crate::foreign::is_left_out;
use std::alloc::{AllocError, Global};
use std::marker::Model;
use wb_text::{Name, NameFault, Token, TokenKind};

/// A reserved word, a constant or a sign.
#[derive(Clone, Copy, PartialEq, Eq)]
pub enum Terminal {
    Let,
    Rec,
    And,
    Acyclic,
    Irreflexive,
    Empty,
    As,
    Flag,
    Show,
    Unshow,
    Include,
    Domain,
    Range,
    Underscore,
    Zero,
    LeftParen,
    RightParen,
    LeftBracket,
    RightBracket,
    LeftBrace,
    RightBrace,
    Comma,
    Equals,
    Bar,
    Semicolon,
    Backslash,
    Ampersand,
    Star,
    Tilde,
    Plus,
    Question,
    Inverse,
}

const TERMINALS: [Terminal; 32] = [
    Terminal::Let,
    Terminal::Rec,
    Terminal::And,
    Terminal::Acyclic,
    Terminal::Irreflexive,
    Terminal::Empty,
    Terminal::As,
    Terminal::Flag,
    Terminal::Show,
    Terminal::Unshow,
    Terminal::Include,
    Terminal::Domain,
    Terminal::Range,
    Terminal::Underscore,
    Terminal::Zero,
    Terminal::LeftParen,
    Terminal::RightParen,
    Terminal::LeftBracket,
    Terminal::RightBracket,
    Terminal::LeftBrace,
    Terminal::RightBrace,
    Terminal::Comma,
    Terminal::Equals,
    Terminal::Bar,
    Terminal::Semicolon,
    Terminal::Backslash,
    Terminal::Ampersand,
    Terminal::Star,
    Terminal::Tilde,
    Terminal::Plus,
    Terminal::Question,
    Terminal::Inverse,
];

impl Terminal {
    /// How it is written.
    #[tactic(auto, unfolding(crate::specs::Symbols::spelling_of))]
    fn spelling(self) -> &'static [u8]
        ensures { result.now ≡ spelling_of self }
    {
        match self {
            Terminal::Let => b"let",
            Terminal::Rec => b"rec",
            Terminal::And => b"and",
            Terminal::Acyclic => b"acyclic",
            Terminal::Irreflexive => b"irreflexive",
            Terminal::Empty => b"empty",
            Terminal::As => b"as",
            Terminal::Flag => b"flag",
            Terminal::Show => b"show",
            Terminal::Unshow => b"unshow",
            Terminal::Include => b"include",
            Terminal::Domain => b"domain",
            Terminal::Range => b"range",
            Terminal::Underscore => b"_",
            Terminal::Zero => b"0",
            Terminal::LeftParen => b"(",
            Terminal::RightParen => b")",
            Terminal::LeftBracket => b"[",
            Terminal::RightBracket => b"]",
            Terminal::LeftBrace => b"{",
            Terminal::RightBrace => b"}",
            Terminal::Comma => b",",
            Terminal::Equals => b"=",
            Terminal::Bar => b"|",
            Terminal::Semicolon => b";",
            Terminal::Backslash => b"\\",
            Terminal::Ampersand => b"&",
            Terminal::Star => b"*",
            Terminal::Tilde => b"~",
            Terminal::Plus => b"+",
            Terminal::Question => b"?",
            Terminal::Inverse => b"^-1",
        }
    }
}

/// The terminal that is written so.
#[tactic(auto, unfolding(crate::specs::Symbols::terminal_of))]
fn terminal_of(bytes: &[u8]) -> Option<Terminal>
    ensures { result ≡ terminal_written bytes.now }
{
    TERMINALS
        .iter()
        .copied()
        .find(|terminal| terminal.spelling() == bytes)
}

/// A printable ASCII byte that is no blank.
fn is_printable(byte: u8) -> bool
    ensures { result ≡ spells_printable byte }
{
    33 <= byte && byte <= 126
}

fn are_printable(bytes: &[u8]) -> bool
    ensures { result ≡ list_all spells_printable bytes.now }
{
    bytes.iter().all(|byte| is_printable(*byte))
}

/// Whether these are 1 to 64 printable bytes.
fn is_name(bytes: &[u8]) -> bool
    ensures { result ≡ spells_name bytes.now }
{
    1 <= bytes.len() && bytes.len() <= 64 && are_printable(bytes)
}

/// A name as it stands in the text. Contracts see its bytes.
#[derive(Drop)]
pub struct Spelling<'a> {
    bytes: &'a [u8],
}

impl<'a> Model for Spelling<'a> {
    ghost use Rattle.std.specs.Prelude.{ℕ, List};
    ghost use Rattle.wb_text.specs.Names.{IsName};

    ghost Value = { List ℕ };

    ghost view = { λ s. s.bytes.now };

    ghost invariant = { λ s. IsName s.bytes.now };
}

impl<'a> Spelling<'a> {
    /// A name of these bytes, if they are one.
    #[tactic(auto, using(crate::proofs::Names::name_is))]
    pub fn new(bytes: &'a [u8]) -> Option<Spelling<'a>>
        ensures { MatchOption result (spells_name bytes.now ≡ false) (λ s. (spells_name bytes.now ≡ true) × (s ≡ bytes.now)) }
    {
        if is_name(bytes) {
            Some(Spelling { bytes })
        } else {
            None
        }
    }

    /// The bytes.
    pub fn bytes(&self) -> &[u8]
        ensures { result.now ≡ self.now }
    {
        self.bytes
    }

    /// The name itself.
    pub fn name(&self, alloc: Global) -> Result<Name, AllocError>
        ensures { IfOk result (λ n. n ≡ self.now) }
    {
        match Name::new(alloc, self.bytes) {
            Ok(name) => Ok(name),
            Err(NameFault::NoMemory) => Err(AllocError),
            Err(NameFault::BadName) => unreachable!(),
        }
    }
}

/// What stands between the quotes. Contracts see its bytes.
#[derive(Drop)]
pub struct Quotation<'a> {
    bytes: &'a [u8],
}

impl<'a> Model for Quotation<'a> {
    ghost use Rattle.std.specs.Prelude.{ℕ, List};

    ghost Value = { List ℕ };

    ghost view = { λ s. s.bytes.now };
}

impl<'a> Quotation<'a> {
    /// What stands between the quotes of a token.
    fn within(token: &'a [u8]) -> Self
        ensures { result ≡ inside token.now }
    {
        match token {
            [_, bytes @ .., _] => Quotation { bytes },
            _ => Quotation { bytes: &token[..0] },
        }
    }

    /// The bytes.
    pub fn bytes(&self) -> &'a [u8]
        ensures { result.now ≡ self.now }
    {
        self.bytes
    }
}

/// What a token is in the grammar.
#[derive(Drop)]
pub enum Symbol<'a> {
    Fixed(Terminal),
    Name(Spelling<'a>),
    Quoted(Quotation<'a>),
    /// A word or a sign that the language leaves out.
    Unsupported(Spelling<'a>),
    /// A token that no production takes.
    Other,
}

/// The bytes of a token.
fn bytes_at(text: &[u8], token: Token) -> &[u8]
    requires { IsWithin (length text.now) token }
    ensures { result.now ≡ bytes_of text.now token }
{
    &text[token.from..token.to]
}

/// What a token is.
fn symbol_at<'a>(text: &'a [u8], token: Token) -> Symbol<'a>
    requires { IsWithin (length text.now) token }
    ensures { result ≡ symbol_of text.now token }
{
    let bytes = bytes_at(text, token);
    if matches!(token.kind, TokenKind::Quoted) {
        return Symbol::Quoted(Quotation::within(bytes));
    }
    if let Some(terminal) = terminal_of(bytes) {
        return Symbol::Fixed(terminal);
    }
    let Some(spelling) = Spelling::new(bytes) else {
        return Symbol::Other;
    };
    if is_left_out(bytes) {
        Symbol::Unsupported(spelling)
    } else if matches!(token.kind, TokenKind::Name) {
        Symbol::Name(spelling)
    } else {
        Symbol::Other
    }
}

/// The symbols of a text with these tokens.
pub fn symbols<'a>(
    alloc: Global,
    text: &'a [u8],
    tokens: &[Token],
) -> Result<Vec<Symbol<'a>>, AllocError>
    requires { All (IsWithin (length text.now)) tokens.now }
    ensures { IfOk result (λ v. v.items ≡ symbols_of text.now tokens.now) }
{
    let mut symbols = Vec::new(alloc);
    for token in tokens {
        symbols.push(symbol_at(text, *token))?;
    }
    Ok(symbols)
}
