//! Orders that their calls don't take.

ghost use Rattle.std.specs.Prelude.{All, length};
ghost use Rattle.wb_text.specs.Tokens.{IsWithin};

use crate::words::shown;
use places::spelled;
use std::alloc::{AllocError, Global};
use wb_text::Token;

/// What a call with an order that it doesn't take has to be told: the order stands at an offset, and its call before it.
pub fn order_sentence(
    alloc: Global,
    text: &[u8],
    tokens: &[Token],
    offset: usize,
) -> Result<String, AllocError>
    requires { All (IsWithin (length text.now)) tokens.now }
{
    let mut call: &[u8] = b"";
    for token in tokens {
        let word = spelled(text, token);
        if token.from >= offset {
            return told(alloc, call, shown(word));
        }
        if word.starts_with(b"atomic_") {
            call = word;
        }
    }
    told(alloc, call, "this order")
}

fn told(alloc: Global, call: &[u8], order: &str) -> Result<String, AllocError> {
    if call.starts_with(b"atomic_load") {
        return format!(in alloc; "a load can't have {order}; it takes relaxed, acquire or seq_cst");
    }
    if call.starts_with(b"atomic_store") {
        return format!(in alloc;
            "a store can't have {order}; it takes relaxed, release or seq_cst"
        );
    }
    format!(in alloc; "this call can't have {order}")
}
