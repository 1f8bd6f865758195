//! The place of a test's fault.

ghost use Rattle.std.specs.Prelude.{◌≡◌, ◌+◌, ◌≢◌, ℕ, IfOk, OnOk, MatchOption};
ghost use Rattle.wb_text.specs.declared.fault.TextFault.TheVariants.{NoMemory};
ghost use Rattle.litmus_c.specs.Reads.{offset_of};
ghost use Rattle.test_places.specs.Accesses.{IsEventTooMany};
ghost use Rattle.test_places.specs.Fronts.{IsStop, IsFirstFront};
ghost use Rattle.test_places.specs.Places as spec;

use crate::accesses::event_too_many;
use crate::limits::{location_too_many, locations, thread_too_many};
use crate::mark::{Mark, marks};
use crate::numbers::numbers;
use crate::reading::{first_front, in_memory, stop};
use crate::rules::{Rule, first_breach};
use crate::values::{value_too_great, value_too_many};
use litmus_c::TestFault;
use litmus_syntax::{Symbol, SyntaxFault, read_draft, symbols};
use places::place_of_fault;
use std::alloc::{AllocError, Global};
use wb_text::{Dialect, TextFault, Token, tokens};

/// Where the fault of a text stands as a test, in bytes from its beginning; none where the text doesn't have it, or memory ran out.
pub fn place_of(alloc: Global, text: &[u8], fault: &TestFault) -> Result<Option<usize>, AllocError>
    ensures { IfOk result (λ o. MatchOption o (spec.HasNoPlace text.now fault.now) (spec.IsPlace text.now fault.now)) }
{
    match fault {
        TestFault::Text(cause) => Ok(Some(place_of_fault(alloc, text, Dialect::Litmus, *cause)?)),
        TestFault::Syntax(offset) => Ok(Some(*offset)),
        TestFault::NoMemory => Ok(None),
        _ => place_among(alloc, text, fault),
    }
}

/// The same for a fault that stands at a token.
fn place_among(alloc: Global, text: &[u8], fault: &TestFault) -> Result<Option<usize>, AllocError>
    ensures { IfOk result (λ o. MatchOption o (spec.IsAtNoToken text.now fault.now) (spec.IsAtToken text.now fault.now)) }
{
    match tokens(alloc, text, Dialect::Litmus) {
        Ok(tokens) => {
            let symbols = symbols(alloc, text, &tokens)?;
            match symbol_of(alloc, &symbols, fault)? {
                Some(place) => return Ok(Some(offset_of(&tokens, text.len(), place))),
                None => return Ok(None),
            }
        }
        Err(found) => {
            has_memory(found)?;
            return Ok(None);
        }
    }
}

/// Whether a fault is the text's own.
fn has_memory(fault: TextFault) -> Result<(), AllocError>
    ensures { OnOk result (fault ≢ NoMemory) }
{
    match fault {
        TextFault::NoMemory => Err(AllocError),
        _ => Ok(()),
    }
}

/// Where the token at a place begins.
fn offset_of(tokens: &[Token], end: usize, place: usize) -> usize
    ensures { result ≡ offset_of tokens.now end place }
{
    match tokens.get(place) {
        Some(token) => token.from,
        None => end,
    }
}

/// The place of the symbol at which a fault stands.
fn symbol_of(
    alloc: Global,
    symbols: &[Symbol],
    fault: &TestFault,
) -> Result<Option<usize>, AllocError>
    ensures { IfOk result (λ o. MatchOption o (spec.HasNoSymbol symbols.now fault.now) (spec.IsSymbol symbols.now fault.now)) }
{
    let marks = marks(alloc, symbols)?;
    match fault {
        TestFault::Unsupported(_) => stop(alloc, symbols),
        TestFault::BadOrder => last_of_front(alloc, symbols, SyntaxFault::BadOrder),
        TestFault::TooDeep => last_of_front(alloc, symbols, SyntaxFault::TooDeep),
        TestFault::UnknownName => Ok(first_breach(Rule::Names, &marks)),
        TestFault::PlainOnAtomic => Ok(first_breach(Rule::PlainAccess, &marks)),
        TestFault::AtomicOnPlain => Ok(first_breach(Rule::AtomicAccess, &marks)),
        TestFault::TooManyThreads => Ok(thread_too_many(&marks)),
        TestFault::TooManyLocations => location_too_many(alloc, &marks),
        TestFault::TooManyValues => value_too_many(alloc, &numbers(alloc, &marks)?),
        TestFault::ValueTooBig => Ok(value_too_great(&numbers(alloc, &marks)?)),
        TestFault::TooManyEvents => event_of(alloc, symbols, &marks),
        TestFault::Text(_) => Ok(None),
        TestFault::Syntax(_) => Ok(None),
        TestFault::NoMemory => Ok(None),
    }
}

/// The last symbol of the shortest front that has a fault.
fn last_of_front(
    alloc: Global,
    symbols: &[Symbol],
    fault: SyntaxFault,
) -> Result<Option<usize>, AllocError>
    requires { IsStop fault }
    ensures { IfOk result (λ o. MatchOption o ((k : ℕ) → ¬ IsFirstFront symbols.now fault (k + 1)) (λ k. IsFirstFront symbols.now fault (k + 1))) }
{
    match first_front(alloc, symbols, fault)? {
        Some(end) => {
            if end == 0 {
                return Ok(None);
            }
            Ok(Some(end - 1))
        }
        None => Ok(None),
    }
}

/// The access or fence with which there are too many events.
fn event_of(alloc: Global, symbols: &[Symbol], marks: &[Mark]) -> Result<Option<usize>, AllocError>
    ensures { IfOk result (λ o. MatchOption o ((k : ℕ) → ¬ IsEventTooMany symbols.now marks.now k) (IsEventTooMany symbols.now marks.now)) }
{
    match read_draft(alloc, symbols) {
        Ok(draft) => {
            let writes = locations(alloc, marks)?;
            return Ok(event_too_many(writes, &draft.bodies, marks));
        }
        Err(found) => {
            in_memory(found)?;
            return Ok(None);
        }
    }
}
