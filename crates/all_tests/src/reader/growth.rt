//! Each call that takes memory. A test passes, too, where one request for memory is refused, whichever it is: the call
//! that is refused answers NoMemory, and made again it gives its own answer. So `tools/refuse-each-growth` runs the tests
//! once for each request.

ghost use Rattle.std.specs.Prelude.{All, length};
ghost use Rattle.wb_text.specs.Tokens.{IsWithin};

use crate::candidate::states::observes;
use crate::reader::answers::{answered, holds_of};
use crate::reader::copies::{bindings_are_copied, compares, places_are_copied};
use crate::rows::{again, all_answered, all_hold, expect};
use litmus_c::Test;
use litmus_syntax::{Draft, Symbol, SyntaxFault, Terminal, read_draft, symbols};
use std::alloc::{AllocError, Global};
use wb_text::{Dialect, TextFault, Token, tokens};

/// A test with each kind of statement.
pub const G: &str = "C G
{ int x=3; 1:q=2; y }
P0 (atomic_int* x, int* y) {
  int a = atomic_load(x), b;
  ;
  { *y = a == 1 && !(b != 2) || 4; }
  if (a) b = atomic_exchange_explicit(x, 1, memory_order_acq_rel); else a = *y;
  if (b) atomic_store_explicit(x, b, memory_order_release);
  atomic_thread_fence(memory_order_seq_cst);
}
P1 (atomic_int* x) { int r; }
locations [y; 0:b]
forall ~(1:q=2 /\\ x=1) \\/ 0:a=0 => (true \\/ false)
";

/// Whether a test observes `0:a`, `0:b`, `1:q`, `x` and `y`.
fn observes_five(alloc: Global, test: &Test) -> Result<bool, AllocError> {
    observes(alloc, test, "0:a 0:b 1:q x y")
}

/// Whether the copies of a test's three entries and two listed places are equal to them.
fn has_copies(_alloc: Global, test: &Test) -> Result<bool, AllocError> {
    Ok(
        test.initial().len() == 3
            && test.listed().len() == 2
            && bindings_are_copied(test.initial())?
            && places_are_copied(test.listed())?,
    )
}

/// Whether a test is named `G`, has two locations, and two registers in its first thread.
fn is_g(_alloc: Global, test: &Test) -> Result<bool, AllocError> {
    match test.threads().first() {
        Some(thread) => Ok(
            test.name().bytes() == b"G".as_slice()
                && test.locations().len() == 2
                && thread.registers().len() == 2,
        ),
        None => Ok(false),
    }
}

/// Whether a draft is that of the text.
fn is_draft(draft: &Draft) -> bool {
    draft.name.bytes() == b"G".as_slice()
        && draft.entries.len() == 3
        && draft.bodies.len() == 2
        && draft.listed.len() == 2
}

/// Whether symbols spell the draft of the text, and the third of them is its brace.
fn are_drafted(alloc: Global, symbols: &[Symbol]) -> bool {
    let Some(Symbol::Fixed(Terminal::LeftBrace)) = symbols.get(2) else {
        return false;
    };
    match again!(SyntaxFault::NoMemory, read_draft(alloc, symbols)).ok() {
        Some(draft) => is_draft(&draft),
        None => false,
    }
}

/// Whether the tokens of a text make the symbols of its draft.
fn are_read(alloc: Global, text: &[u8], tokens: &[Token]) -> bool
    requires { All (IsWithin (length text.now)) tokens.now }
{
    match again!(_, symbols(alloc, text, tokens)) {
        Ok(symbols) => are_drafted(alloc, &symbols),
        Err(_) => false,
    }
}

/// Whether a text has tokens that make the symbols of its draft.
fn is_drafted(alloc: Global, text: &[u8]) -> bool {
    match again!(TextFault::NoMemory, tokens(alloc, text, Dialect::Litmus)) {
        Ok(tokens) => are_read(alloc, text, &tokens),
        Err(_) => false,
    }
}

#[test]
fn symbols_and_drafts(rt: HostRuntime) {
    expect(
        &rt,
        "symbols and drafts",
        is_drafted(rt.alloc(), G.as_bytes()),
    );
}

/// Whether a test has the values 0, 1, 3, 2 and 4, in this order.
fn has_five_values(alloc: Global, test: &Test) -> Result<bool, AllocError> {
    let all = again!(_, test.values(alloc))?;
    Ok(all.as_slice() == [0, 1, 3, 2, 4].as_slice())
}

/// Whether a test has the values 0 to 5, in this order.
fn has_six_values(alloc: Global, test: &Test) -> Result<bool, AllocError> {
    let all = again!(_, test.values(alloc))?;
    Ok(all.as_slice() == [0, 1, 2, 3, 4, 5].as_slice())
}

/// Two adds of 2 make 4 of 0, and 5 of 1.
const ADDS: &str = "C G
{}
P0 (atomic_int* x) {
  atomic_fetch_add(x, 2);
  int r = atomic_fetch_add_explicit(x, 2, memory_order_release);
}
exists (x=4)
";

#[test]
fn tests(rt: HostRuntime) {
    let alloc = rt.alloc();
    expect(&rt, "a test", holds_of(alloc, G, is_g));
    expect(&rt, "observed places", holds_of(alloc, G, observes_five));
    expect(&rt, "five values", holds_of(alloc, G, has_five_values));
    expect(&rt, "six values", holds_of(alloc, ADDS, has_six_values));
}

const COPIES: &str = "# the same text, and another

G
<>
G ==> equal

G
<>
SB ==> another";

#[test]
fn copies(rt: HostRuntime) {
    let alloc = rt.alloc();
    expect(&rt, "entries and places", holds_of(alloc, G, has_copies));
    all_hold(&rt, alloc, "tests", COPIES, compares);
}

const REFUSALS: &str = "# reading no test

C a
{\"} ==> 11 Text 4 OpenString

C SB
{ ==> 12 Syntax 6

C a
{x}P0(){}exists y=0 ==> 14 UnknownName

# reading a word left out

C a
{}P0(){while}exists true ==> 17 Unsupported while";

#[test]
fn refusals(rt: HostRuntime) {
    all_answered(&rt, rt.alloc(), "refusals", REFUSALS, answered);
}
