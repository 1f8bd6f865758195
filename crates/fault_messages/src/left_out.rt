//! Words that tests leave out.

use crate::words::{CALLS, ORDERS, Row, nearest_in, shown, told_of, with_meant};
use std::alloc::{AllocError, Global};

/// What stands for a word that tests leave out.
pub fn left_out_sentence(alloc: Global, word: &[u8]) -> Result<String, AllocError> {
    if let Some(sentence) = of_statement(word) {
        return String::from_str(alloc, sentence);
    }
    if word.starts_with(b"memory_order_") {
        return order_sentence(alloc, word);
    }
    if word.starts_with(b"smp_") {
        return String::from_str(
            alloc,
            "the kernel's calls are left out; the nearest to smp_mb() is atomic_thread_fence(memory_order_seq_cst)",
        );
    }
    if let Some(sentence) = of_call(word) {
        return String::from_str(alloc, sentence);
    }
    let name = shown(word);
    let sentence = format!(in alloc; "{name} is no call of a test")?;
    let meant = nearest_in(alloc, name, &[CALLS])?;
    with_meant(alloc, sentence, meant)
}

/// Words of C's statements, and of the kernel.
const STATEMENTS: [Row; 8] = [
    (
        "while for do goto break continue",
        "loops and jumps are left out; write the turns that matter one behind another, with if",
    ),
    ("switch", "switch is left out; write if and else"),
    (
        "return",
        "return is left out; put what it would skip into an if",
    ),
    (
        "filter",
        "filter is left out; with its proposition p write exists (p /\\ q), ~exists (p /\\ q) or forall (p => q)",
    ),
    (
        "READ_ONCE",
        "READ_ONCE is left out; write atomic_load_explicit(x, memory_order_relaxed), with atomic_int* x",
    ),
    (
        "WRITE_ONCE",
        "WRITE_ONCE is left out; write atomic_store_explicit(x, 1, memory_order_relaxed), with atomic_int* x",
    ),
    (
        "smp_load_acquire",
        "smp_load_acquire is left out; write atomic_load_explicit(x, memory_order_acquire), with atomic_int* x",
    ),
    (
        "smp_store_release",
        "smp_store_release is left out; write atomic_store_explicit(x, 1, memory_order_release), with atomic_int* x",
    ),
];

/// What is told of a word of C's statements, or of the kernel.
pub fn of_statement(word: &[u8]) -> Option<&'static str> {
    told_of(&STATEMENTS, word)
}

/// Calls of C that tests leave out.
fn of_call(word: &[u8]) -> Option<&'static str> {
    if word.starts_with(b"atomic_compare_exchange") {
        return Some(
            "compare-exchange is left out, and no call of a test does the same; if only its success matters, write int r = atomic_exchange_explicit(x, 1, o) with its order o for success, and ask in the condition that r is the value that it expects",
        );
    }
    if word.starts_with(b"atomic_fetch_sub")
        || word.starts_with(b"atomic_fetch_or")
        || word.starts_with(b"atomic_fetch_xor")
        || word.starts_with(b"atomic_fetch_and")
    {
        return Some(
            "of the calls that read and write, a test has atomic_exchange and atomic_fetch_add alone",
        );
    }
    if word == b"atomic_init".as_slice() {
        return Some(
            "atomic_init is left out; set the location in the initial state, as in { x = 1; }",
        );
    }
    if word.starts_with(b"atomic_flag_") {
        return Some("flags are left out; for test-and-set write atomic_exchange(x, 1)");
    }
    None
}

/// Words that look like orders.
fn order_sentence(alloc: Global, word: &[u8]) -> Result<String, AllocError> {
    if word == b"memory_order_consume".as_slice() {
        return String::from_str(
            alloc,
            "consume is left out; write memory_order_acquire, which compilers make of it",
        );
    }
    let name = shown(word);
    let sentence = format!(in alloc;
        "{name} is no order: they are relaxed, acquire, release, acq_rel and seq_cst"
    )?;
    let meant = nearest_in(alloc, name, &[ORDERS])?;
    with_meant(alloc, sentence, meant)
}
