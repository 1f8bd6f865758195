//! The tokens of an item, and those that name something in it.

ghost use Rattle.std.specs.Prelude.{◌≡◌, ◌+◌, ◌↔◌, All, IfOk, IsTrue, length, slice_get, true, false};
ghost use Rattle.wb_text.specs.Tokens.{IsWithin};
ghost use Rattle.cat_places.specs.Own as spec;

use crate::text::file_of;
use cat_syntax::Item;
use places::spelled;
use std::alloc::{AllocError, Global};
use wb_text::Token;

/// Whether there are so many items and so many more.
fn are_so_many(found: &[Item], items: usize, more: usize) -> bool
    ensures { IsTrue result ↔ (length found.now ≡ items + more) }
{
    found.len() >= more && found.len() - more == items
}

/// Whether a text is a cat file of so many items and so many more.
fn has_items(alloc: Global, text: &[u8], items: usize, more: usize) -> Result<bool, AllocError>
    ensures yes { IfOk result (λ b. b ≡ true → spec.HasItems text.now (items + more)) }
    ensures no { IfOk result (λ b. b ≡ false → ¬ spec.HasItems text.now (items + more)) }
{
    match file_of(alloc, text)? {
        Some(file) => Ok(are_so_many(file.items(), items, more)),
        None => Ok(false),
    }
}

/// How many tokens the longest front has that is a cat file of so many items and so many more; none where no front is.
fn end_of_items(
    alloc: Global,
    text: &[u8],
    tokens: &[Token],
    items: usize,
    more: usize,
) -> Result<usize, AllocError>
    requires { All (IsWithin (length text.now)) tokens.now }
    ensures { IfOk result (spec.AreFirst text.now tokens.now (items + more)) }
{
    let mut end = tokens.len();
    while end > 0 {
        let token = tokens[end - 1];
        if has_items(alloc, &text[..token.to], items, more)? {
            return Ok(end);
        }
        end -= 1;
    }
    Ok(0)
}

/// The tokens of the item of this number.
pub fn tokens_of_item<'a>(
    alloc: Global,
    text: &[u8],
    tokens: &'a [Token],
    item: usize,
) -> Result<&'a [Token], AllocError>
    requires { All (IsWithin (length text.now)) tokens.now }
    ensures own { IfOk result (λ ts. spec.AreOwn text.now tokens.now item ts.now) }
    ensures within { IfOk result (λ ts. All (IsWithin (length text.now)) ts.now) }
{
    let from = end_of_items(alloc, text, tokens, item, 0)?;
    let to = end_of_items(alloc, text, tokens, item, 1)?;
    Ok(&tokens[from.min(to)..to])
}

/// The token of this number.
pub fn token_at(tokens: &[Token], number: usize) -> Option<Token>
    ensures { result ≡ slice_get tokens.now number }
{
    match tokens.get(number) {
        Some(token) => Some(*token),
        None => None,
    }
}

/// What comes next in an item.
#[derive(Clone, Copy, PartialEq, Eq)]
pub enum Stage {
    /// A bound name.
    Binder,
    /// The parameters, or `=`.
    Parameters,
    /// An expression.
    Expression,
    /// A name of a check or of what is shown.
    Label,
}

/// Where a walk over the tokens of an item is that looks for a name, and whether a parameter of that name hides it.
#[derive(Clone, Copy)]
pub struct At {
    pub stage: Stage,
    pub hidden: bool,
}

/// Whether a name is bound behind a word.
fn begins_binder(word: &[u8]) -> bool
    ensures { result ≡ spec.begins_binder word.now }
{
    word == b"let".as_slice() || word == b"and".as_slice() || word == b"rec".as_slice()
}

/// Whether a word begins a check.
fn begins_check(word: &[u8]) -> bool
    ensures { result ≡ spec.begins_check word.now }
{
    word == b"acyclic".as_slice()
        || word == b"irreflexive".as_slice()
        || word == b"empty".as_slice()
}

/// What comes behind a token that is no word of its own.
fn settled(stage: Stage) -> Stage
    ensures { result ≡ spec.settled stage }
{
    match stage {
        Stage::Binder | Stage::Parameters => Stage::Parameters,
        Stage::Expression | Stage::Label => Stage::Expression,
    }
}

/// What comes behind a token.
fn stage_behind(stage: Stage, word: &[u8]) -> Stage
    ensures { result ≡ spec.stage_behind stage word.now }
{
    if begins_binder(word) {
        return Stage::Binder;
    }
    if word == b"as".as_slice() {
        return Stage::Label;
    }
    if word == b"=".as_slice() {
        return Stage::Expression;
    }
    settled(stage)
}

impl At {
    /// Where an item begins.
    const fn start() -> At
        ensures { result ≡ spec.start }
    {
        At {
            stage: Stage::Expression,
            hidden: false,
        }
    }

    /// Whether a parameter hides the name behind a token, which is spelled as the name or not.
    fn is_hidden_behind(self, is_name: bool) -> bool
        ensures { result ≡ spec.is_hidden_behind self.hidden self.stage is_name }
    {
        match self.stage {
            Stage::Binder => false,
            Stage::Parameters => self.hidden || is_name,
            Stage::Expression | Stage::Label => self.hidden,
        }
    }

    /// Behind a token.
    fn behind(self, word: &[u8], name: &[u8]) -> At
        ensures { result ≡ spec.behind name.now self word.now }
    {
        At {
            stage: stage_behind(self.stage, word),
            hidden: self.is_hidden_behind(word == name),
        }
    }

    /// Whether a token is a use of the name.
    fn is_used(self, word: &[u8], name: &[u8]) -> bool
        ensures { result ≡ spec.is_used name.now self word.now }
    {
        self.stage == Stage::Expression && !self.hidden && word == name
    }

    /// Whether the name is bound at a token, or is the word of a check.
    fn is_bound(self, word: &[u8], name: &[u8]) -> bool
        ensures { result ≡ spec.is_bound name.now self word.now }
    {
        (self.stage == Stage::Binder || begins_check(word)) && word == name
    }
}

/// The tokens at which an item uses a name: not where it binds it, nor where a parameter of that name hides it.
pub fn uses(
    alloc: Global,
    text: &[u8],
    tokens: &[Token],
    name: &[u8],
) -> Result<Vec<Token>, AllocError>
    requires { All (IsWithin (length text.now)) tokens.now }
    ensures all { IfOk result (λ v. v.items ≡ spec.uses text.now name.now tokens.now) }
    ensures within { IfOk result (λ v. All (IsWithin (length text.now)) v.items) }
{
    let mut uses = Vec::new(alloc);
    let mut at = At::start();
    for token in tokens {
        let word = spelled(text, token);
        if at.is_used(word, name) {
            uses.push(*token)?;
        }
        at = at.behind(word, name);
    }
    Ok(uses)
}

/// The token at which an item binds a name, or its check's word.
pub fn bound_at(text: &[u8], tokens: &[Token], name: &[u8]) -> Option<Token>
    requires { All (IsWithin (length text.now)) tokens.now }
    ensures { result ≡ spec.bound_at text.now name.now tokens.now }
{
    let mut at = At::start();
    for token in tokens {
        let word = spelled(text, token);
        if at.is_bound(word, name) {
            return Some(*token);
        }
        at = at.behind(word, name);
    }
    None
}
