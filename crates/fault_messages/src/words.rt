//! Words that are near to others.

use std::alloc::{AllocError, Global};
use strsim::levenshtein;

/// How far a word may be from a known one for that to be meant.
const FAR: usize = 2;

/// How many letters a word has for each that may be wrong.
const LETTERS: usize = 3;

/// The calls that a test may have, with a blank between them.
pub const CALLS: &str =
    "atomic_load atomic_load_explicit atomic_store atomic_store_explicit atomic_exchange atomic_exchange_explicit atomic_fetch_add atomic_fetch_add_explicit atomic_thread_fence";

/// Its orders.
pub const ORDERS: &str =
    "memory_order_relaxed memory_order_acquire memory_order_release memory_order_acq_rel memory_order_seq_cst";

/// Its other words.
const OTHERS: &str = "int atomic_int volatile if else exists forall not true false locations";

/// The known word that is nearest to one, the first of several, if one is near.
pub fn nearest<'a>(
    alloc: Global,
    word: &str,
    known: &[&'a str],
) -> Result<Option<&'a str>, AllocError> {
    let mut best = None;
    let mut least = FAR + 1;
    for other in known {
        let distance = levenshtein(alloc, word, other)?;
        if distance > 0 && distance < least && distance.saturating_mul(LETTERS) <= word.len() {
            least = distance;
            best = Some(*other);
        }
    }
    Ok(best)
}

/// The nearest of the words of these texts, which have a blank between them.
pub fn nearest_in<'a>(
    alloc: Global,
    word: &str,
    texts: &[&'a str],
) -> Result<Option<&'a str>, AllocError> {
    let mut known = Vec::new(alloc);
    for text in texts {
        for other in text.split(' ') {
            known.push(other)?;
        }
    }
    nearest(alloc, word, &known)
}

/// The nearest of all words that a test may have.
pub fn nearest_known(alloc: Global, word: &str) -> Result<Option<&'static str>, AllocError> {
    nearest_in(alloc, word, &[CALLS, ORDERS, OTHERS])
}

/// Words with a blank between them, and what is told of each of them.
pub type Row = (&'static str, &'static str);

/// Whether a word is one of those between blanks.
pub fn is_among(words: &str, word: &[u8]) -> bool {
    words.split(' ').any(|known| known.as_bytes() == word)
}

/// What is told of a word, if a row has it.
pub fn told_of(rows: &[Row], word: &[u8]) -> Option<&'static str> {
    for (words, sentence) in rows {
        if is_among(words, word) {
            return Some(*sentence);
        }
    }
    None
}

/// Bytes as a word of a sentence.
pub fn shown(bytes: &[u8]) -> &str {
    std::str::from_utf8(bytes).unwrap_or("this")
}

/// A sentence with what may be meant behind it, if anything.
pub fn with_meant(
    alloc: Global,
    sentence: String,
    meant: Option<&str>,
) -> Result<String, AllocError> {
    match meant {
        Some(known) => format!(in alloc; "{sentence}; did you mean {known}?"),
        None => Ok(sentence),
    }
}
