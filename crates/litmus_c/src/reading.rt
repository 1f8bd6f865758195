//! The reader.

ghost use Rattle.std.specs.Prelude.{◌≡◌, IfOk, IfErr, MatchResult};
ghost use Rattle.litmus_c.specs.Reads.{IsWrittenIn, left_out, left_out_at, offset_of, SpellNoTest, IsRefused, IsUnwritten, Reads};
ghost use Rattle.litmus_c.specs.declared.fault.TestFault.TheVariants.{NoMemory};
ghost use Rattle.litmus_syntax.specs.Drafts.{Written, written_of};
ghost use Rattle.litmus_syntax.specs.Grammar.{Spells};
ghost use Rattle.litmus_tree.specs.Tree.{Litmus};

use crate::fault::TestFault;
use crate::making::make_test;
use litmus_syntax::{Draft, Symbol, SyntaxFault, read_draft, symbols};
use litmus_value::Test;
use std::alloc::{AllocError, Global};
use wb_text::{Dialect, Name, Token, tokens};

/// Reads a text as a test.
pub fn read_test(alloc: Global, text: &[u8]) -> Result<Test, TestFault>
    // What is read is a test that the text spells.
    ensures found { IfOk result (λ t. Reads text.now t) }
    // A test that the text spells is read, unless memory runs out.
    ensures only { (t : Litmus) → Reads text.now t → MatchResult result (λ u. u ≡ t) (λ e. e ≡ NoMemory) }
    // Each refusal comes only where its cause holds.
    ensures cause { IfErr result (λ e. IsRefused text.now e) }
{
    make_test(alloc, read_text(alloc, text)?)
}

/// The test that is written in a text.
fn read_text(alloc: Global, text: &[u8]) -> Result<Draft, TestFault>
    ensures found { IfOk result (λ d. IsWrittenIn text.now (written_of d)) }
    ensures only { (w : Written) → IsWrittenIn text.now w → MatchResult result (λ d. written_of d ≡ w) (λ e. e ≡ NoMemory) }
    ensures cause { IfErr result (λ e. IsUnwritten text.now e) }
{
    let tokens = tokens(alloc, text, Dialect::Litmus)?;
    let symbols = symbols(alloc, text, tokens.as_slice())?;
    let draft = draft_of(alloc, tokens.as_slice(), symbols.as_slice(), text.len())?;
    Ok(draft)
}

/// The test that the symbols spell, or the refusal of its text, whose length is `end`.
#[tactic(auto, using(crate::proofs::Stops::stops_at_word, crate::proofs::Stops::stops_at_offset))]
fn draft_of(
    alloc: Global,
    tokens: &[Token],
    symbols: &[Symbol],
    end: usize,
) -> Result<Draft, TestFault>
    ensures found { IfOk result (λ d. Spells symbols.now (written_of d)) }
    ensures only { (w : Written) → Spells symbols.now w → MatchResult result (λ d. written_of d ≡ w) (λ e. e ≡ NoMemory) }
    ensures cause { IfErr result (λ e. SpellNoTest symbols.now tokens.now end e) }
{
    match read_draft(alloc, symbols) {
        Ok(draft) => Ok(draft),
        Err(SyntaxFault::Syntax(left)) => {
            let place = symbols.len() - left;
            match foreign_at(symbols, place)? {
                Some(word) => Err(TestFault::Unsupported(word)),
                None => Err(TestFault::Syntax(offset_of(tokens, end, place))),
            }
        }
        Err(SyntaxFault::BadOrder) => Err(TestFault::BadOrder),
        Err(SyntaxFault::TooDeep) => Err(TestFault::TooDeep),
        Err(SyntaxFault::NoMemory) => Err(TestFault::NoMemory),
    }
}

/// The word of a symbol, if it is one that the language leaves out.
fn foreign(symbol: &Symbol) -> Result<Option<Name>, AllocError>
    ensures { IfOk result (λ o. o ≡ left_out symbol.now) }
{
    match symbol {
        Symbol::Foreign(word) => Ok(Some(word.copy()?)),
        _ => Ok(None),
    }
}

/// The word at a place, if it is one that the language leaves out.
#[tactic(auto, using(crate::proofs::Stops::found_inside, crate::proofs::Stops::found_behind))]
fn foreign_at(symbols: &[Symbol], place: usize) -> Result<Option<Name>, AllocError>
    ensures { IfOk result (λ o. o ≡ left_out_at symbols.now place) }
{
    match symbols.get(place) {
        Some(symbol) => foreign(symbol),
        None => Ok(None),
    }
}

/// Where the token at a place begins, or the end of the text behind all tokens.
#[tactic(auto, using(crate::proofs::Stops::offset_inside, crate::proofs::Stops::offset_behind))]
fn offset_of(tokens: &[Token], end: usize, place: usize) -> usize
    ensures { result ≡ offset_of tokens.now end place }
{
    match tokens.get(place) {
        Some(token) => token.from,
        None => end,
    }
}
