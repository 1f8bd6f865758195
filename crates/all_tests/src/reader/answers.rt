//! Texts that several tests read, and what the reader answers.

use crate::litmus::read;
use crate::reader::adds::ADDS;
use crate::reader::refusals::REFUSALS;
use crate::reader::sizes::SIZES;
use crate::rows::{all_answered, expanded, expect};
use litmus_c::{Test, TestFault, read_test};
use std::alloc::{AllocError, Global};

/// Store buffering.
pub const SB: &str = "C SB
{}
P0 (atomic_int* x, atomic_int* y) {
  atomic_store_explicit(x, 1, memory_order_relaxed);
  int r0 = atomic_load_explicit(y, memory_order_relaxed);
}
P1 (atomic_int* x, atomic_int* y) {
  atomic_store_explicit(y, 1, memory_order_relaxed);
  int r0 = atomic_load_explicit(x, memory_order_relaxed);
}
exists (0:r0=0 /\\ 1:r0=0)
";

/// What may hold of a test. A check makes a call again that memory was wanting for.
pub type Check = fn(Global, &Test) -> Result<bool, AllocError>;

/// Whether this holds of the test that a text spells.
pub fn holds_of(alloc: Global, text: &str, check: Check) -> bool
    requires { IsAlwaysCallable check }
{
    match read(alloc, text) {
        Ok(test) => check(alloc, &test).unwrap_or(false),
        Err(_) => false,
    }
}

/// What the text of a row is answered: the words "a test", or the refusal as it is printed.
pub fn answered(alloc: Global, text: &str) -> Result<String, AllocError> {
    let text = expanded(alloc, text)?;
    match read_test(alloc, text.as_bytes()).err() {
        None => String::from_str(alloc, "a test"),
        Some(TestFault::NoMemory) => Err(AllocError),
        Some(fault) => format!(in alloc; "{fault}"),
    }
}

/// Whether a text is refused as one that is cut off. An order's name that is cut off is none of the five.
fn is_cut_off(alloc: Global, text: &[u8]) -> bool {
    matches!(
        read_test(alloc, text).err(),
        Some(TestFault::Text(_) | TestFault::Syntax(_) | TestFault::Unsupported(_))
    )
}

/// Whether each of the prefixes of a text that are shorter than it by more than so much is refused as cut off.
fn all_are_cut_off(alloc: Global, text: &[u8], by: usize) -> bool {
    for length in 0..text.len().saturating_sub(by) {
        if !is_cut_off(alloc, &text[..length]) {
            return false;
        }
    }
    true
}

/// Whether that holds of store buffering, which ends with `)` and a line feed: the longest prefix lacks both.
fn prefixes_are_cut_off(alloc: Global) -> bool {
    SB.as_bytes().ends_with(b")\n") && all_are_cut_off(alloc, SB.as_bytes(), 1)
}

#[test]
fn answers(rt: HostRuntime) {
    let alloc = rt.alloc();
    all_answered(&rt, alloc, "adds", ADDS, answered);
    all_answered(&rt, alloc, "refusals", REFUSALS, answered);
    all_answered(&rt, alloc, "sizes", SIZES, answered);
    expect(&rt, "hostile input row 1", prefixes_are_cut_off(alloc));
}
